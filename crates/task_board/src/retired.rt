use frame_params::{FrameParams, Parked};

/// What nobody reads any more: the tick that stood at the question before the one that was parked last, and what the jobs of
/// the frame read that was shown last.
#[derive(Drop)]
pub struct Retired<'t> {
    pub(crate) parked: Option<Parked<'t>>,
    pub(crate) params: Option<FrameParams<'t>>,
}

impl<'t> Retired<'t> {
    pub(crate) fn nothing() -> Retired<'t> {
        Retired {
            parked: None,
            params: None,
        }
    }
}
