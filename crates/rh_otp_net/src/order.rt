//! In which order things are taken that may come in any.

ghost use Rattle.std.specs.Prelude.{◌≡◌, ◌<◌};
ghost use Rattle.rh_otp_net.specs.Order.{drawn, place_in, next_order};

/// In which order messages of different processes are taken, and what else may come in any order (ours).
#[derive(Clone, Copy, Debug, PartialEq, Eq)]
pub enum Order {
    /// What came first is taken first.
    FirstComes,
    /// What came last is taken first.
    LastComes,
    /// Numbers decide, of which this is the last that was drawn: each is the one before times 48,271, modulo 2,147,483,647 (the
    /// minimal standard generator of Park and Miller, Communications of the ACM 31, 1988).
    Drawn(u32),
}

// The number behind this one.
fn drawn(number: u32) -> u32
    ensures { result ≡ drawn number }
{
    (u64::from(number) * 48_271 % 2_147_483_647) as u32
}

impl Order {
    /// The place of what is taken next, of so many.
    pub fn place(self, count: usize) -> usize
        requires { 0 < count }
        ensures place { result ≡ place_in self count }
        ensures within { result < count }
    {
        match self {
            Order::FirstComes => 0,
            Order::LastComes => count - 1,
            Order::Drawn(number) => drawn(number) as usize % count,
        }
    }

    /// The order behind that.
    pub fn next_order(self) -> Order
        ensures { result ≡ next_order self }
    {
        match self {
            Order::Drawn(number) => Order::Drawn(drawn(number)),
            _ => self,
        }
    }
}
