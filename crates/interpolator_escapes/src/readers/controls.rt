//! Reading the controls of a line.
ghost use Rattle.interpolator_escapes.specs.Lines.{control_step, everywhere};

use crate::laid::is_control;
use crate::readers::Reader;
use interpolator_render::{Spec, Trait};
use std::alloc::AllocError;

/// A reader that tells controls from other characters. A value may stand anywhere.
#[derive(Clone, Copy, Debug, PartialEq, Eq)]
pub struct ControlReader {}

impl Reader for ControlReader {
    ghost State = { Unit {0} };

    ghost state = { λ _. tt };

    ghost step = { control_step };

    ghost places = { everywhere };

    fn read(&mut self, c: char) -> Result<bool, AllocError> {
        Ok(is_control(c))
    }

    fn is_place(&self, _wanted: Trait, _spec: &Spec) -> bool {
        true
    }

    fn is_at(&self, _other: &ControlReader) -> bool {
        true
    }

    fn copied(&self) -> Result<ControlReader, AllocError> {
        Ok(*self)
    }
}
