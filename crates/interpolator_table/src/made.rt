//! What the macro calls.

pub use interpolator_eval::items_of;
