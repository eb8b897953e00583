// The services that a header may ask for, each made fresh for a seat.
use registers::{GlyphRegister, ReleaseLine};
use service::{Service, Sessions};
use std::alloc::{AllocError, Global};

/// A service that can stand at a seat.
pub trait Fresh: Service + Sized {
    /// One to which nothing was applied yet.
    fn fresh(heap: Global) -> Result<Self, AllocError>;
}

impl Fresh for GlyphRegister {
    fn fresh(heap: Global) -> Result<GlyphRegister, AllocError> {
        GlyphRegister::new(heap)
    }
}

impl Fresh for ReleaseLine {
    fn fresh(_heap: Global) -> Result<ReleaseLine, AllocError> {
        Ok(ReleaseLine::new())
    }
}

impl<S: Fresh> Fresh for Sessions<S> {
    fn fresh(heap: Global) -> Result<Sessions<S>, AllocError> {
        Ok(Sessions::new(S::fresh(heap)?))
    }
}
