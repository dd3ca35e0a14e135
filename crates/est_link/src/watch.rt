//! The statements that wait for something while another runs.
ghost use Rattle.std.specs.Prelude.{◌≡◌};
ghost use Rattle.est_link.specs.Inner.Watches.{watched};
ghost use Rattle.est_reduce.specs.Views.{body_of};
ghost use Rattle.est_reduce.specs.Views.{bound_query as query_view};

use est_reduce::body::{Body, Wait};

/// What becomes of a statement once what is waited for is there.
#[derive(Clone, Copy)]
pub enum Watch {
    /// It stands still.
    Suspend,
    /// It is ended at once.
    Abort,
    /// It does what it does in that instant, and is then left.
    WeakAbort,
    /// It is begun, and begun anew each time.
    Every,
}

impl Watch {
    /// The flat statement of a wait and the statement that it watches.
    pub fn over(self, wait: Wait, p: Box<Body>) -> Body
        ensures { body_of result ≡ watched self wait.immediate (query_view wait.test)
            (body_of p.value) }
    {
        match self {
            Watch::Suspend => Body::Suspend(wait, p),
            Watch::Abort => Body::Abort(wait, p),
            Watch::WeakAbort => Body::WeakAbort(wait, p),
            Watch::Every => Body::Every(wait, p),
        }
    }
}
