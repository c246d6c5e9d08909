//! Edits that follow one another.

ghost use Rattle.std.specs.Prelude.{◌≡◌, ◌≤◌, drop, length, take};
ghost use Rattle.rh_base.specs.Exchanges.{back, forth, backed, forthed, AllBack, AllForth};
ghost use Rattle.rh_state.specs.Edits.{exchange, turned};
ghost use Rattle.rh_state.specs.Records.{CanGoBack, CanGoForth};

use crate::edit::Edit;
use crate::state::State;

/// Takes edits back, from the last to the first.
pub fn go_back(edits: &mut [Edit], state: &mut State)
    requires { AllBack exchange CanGoBack state.old edits.old }
    ensures words { state.new ≡ back exchange state.old edits.old }
    ensures edits { edits.new ≡ backed exchange turned state.old edits.old }
{
    let mut left = edits.len();
    'back: while left > 0 {
        left -= 1;
        state.back(&mut edits[left]);
    }
}

/// Takes back the edits behind a mark, from the last to the first, and drops them. A mark is how many edits there were when it was
/// set: so many stay, and at the mark 0 none does.
pub fn rewind(edits: &mut Vec<Edit>, mark: usize, state: &mut State)
    requires within { mark ≤ length edits.old.items }
    requires back { AllBack exchange CanGoBack state.old (drop mark edits.old.items) }
    ensures state { state.new ≡ back exchange state.old (drop mark edits.old.items) }
    ensures edits { edits.new.items ≡ take mark edits.old.items }
{
    go_back(&mut edits[mark..], state);
    edits.truncate(mark);
}

/// Makes edits again, from the first to the last.
pub fn go_forth(edits: &mut [Edit], state: &mut State)
    requires { AllForth exchange CanGoForth state.old edits.old }
    ensures words { state.new ≡ forth exchange state.old edits.old }
    ensures edits { edits.new ≡ forthed exchange turned state.old edits.old }
{
    let mut made = 0;
    'forth: while made < edits.len() {
        state.forth(&mut edits[made]);
        made += 1;
    }
}
