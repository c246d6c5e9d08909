//! How much a cluster file may hold.

ghost use Rattle.std.specs.Prelude.{◌≡◌, ◌≤◌};
ghost use Rattle.rh_model.specs.Limits.{is_profile, node_limit, app_limit};

/// How many nodes a cluster of any profile may have (ours); so many one of the second profile may have.
pub const MAX_NODES: usize = 64;

/// How many applications a cluster of any profile may have (ours); so many one of the second profile may have.
pub const MAX_APPS: usize = 128;

/// How many nodes a cluster of the first profile may have (ours).
pub const FIRST_PROFILE_NODES: usize = 32;

/// How many applications a cluster of the first profile may have (ours).
pub const FIRST_PROFILE_APPS: usize = 64;

/// How many different platform names a file may have (ours).
pub const MAX_PLATFORMS: usize = 256;

/// How long a wait that ends by itself may be, in milliseconds (ours).
pub const TIMEOUT_LIMIT: u64 = 1_000_000_000_000;

/// Is there a profile of this number?
pub fn is_profile(number: u64) -> bool
    ensures { result ≡ is_profile number }
{
    number == 1 || number == 2
}

/// How many nodes a cluster of this profile may have.
pub fn node_limit(profile: u8) -> usize
    ensures limit { result ≡ node_limit profile }
    ensures greatest { result ≤ MAX_NODES }
{
    if profile == 2 {
        MAX_NODES
    } else {
        FIRST_PROFILE_NODES
    }
}

/// How many applications a cluster of this profile may have.
pub fn app_limit(profile: u8) -> usize
    ensures limit { result ≡ app_limit profile }
    ensures greatest { result ≤ MAX_APPS }
{
    if profile == 2 {
        MAX_APPS
    } else {
        FIRST_PROFILE_APPS
    }
}
