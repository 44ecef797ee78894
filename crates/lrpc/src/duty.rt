//! What a thread owes to the call that started it.

ghost use Rattle.std.specs.Prelude.{◌≡◌};
ghost use Rattle.lrpc.specs.Duties.{given_by, after_giving, owed_by};

use crate::call::CallNo;

/// What a thread owes to a remote call.
#[derive(Clone, Copy, PartialEq, Eq)]
pub enum Duty {
    /// It serves no call.
    None,
    /// It serves a call whose caller waits for nothing.
    Cast(CallNo),
    /// The caller waits for a result.
    Owes(CallNo),
    /// The result has been sent.
    Paid(CallNo),
}

/// What becomes of a result that a thread gives.
#[derive(Clone, Copy, PartialEq, Eq)]
pub enum Given {
    /// It goes to the caller of this call.
    Send(CallNo),
    /// A result was sent before.
    Taken,
    /// No caller waits for one.
    NoSuch,
}

impl Duty {
    /// The thread gives its result: it is sent where one is owed, and the duty is paid then.
    pub fn give(&mut self) -> Given
        ensures given { result ≡ given_by self.old }
        ensures duty { self.new ≡ after_giving self.old }
    {
        let given = match self {
            Duty::None => Given::NoSuch,
            Duty::Cast(_) => Given::NoSuch,
            Duty::Owes(call) => Given::Send(*call),
            Duty::Paid(_) => Given::Taken,
        };
        if let Given::Send(call) = &given {
            *self = Duty::Paid(*call);
        }
        given
    }

    /// The thread ends: the call whose caller still waits, who will get no result. None exactly where nobody waits.
    pub fn ended(&self) -> Option<CallNo>
        ensures { result ≡ owed_by self.now }
    {
        match self {
            Duty::Owes(call) => Some(*call),
            Duty::None | Duty::Cast(_) | Duty::Paid(_) => None,
        }
    }
}
