ghost use Rattle.std.specs.Prelude.{◌≡◌};

use tasks::store::Stop;

// Why a call has no value: there is no room for a node, too many calls are open, there is no such function or it takes other arguments, or the value does not fit.
#[derive(Clone, Copy, Debug, PartialEq)]
pub enum CallError {
    Full,
    Deep,
    BadCall,
    OutFull,
}

impl From<Stop> for CallError {
    ghost use Rattle.calling.specs.Errors.{error_of};

    ghost from_gives = { λ stop e. e ≡ error_of stop };

    fn from(stop: Stop) -> CallError {
        match stop {
            Stop::Full => CallError::Full,
            Stop::Deep => CallError::Deep,
        }
    }
}
