//! The texts of what a run planned.

ghost use Rattle.std.specs.Prelude.{Some};
ghost use Rattle.report.specs.Texts.{destination_text, window_text};

use machine::Addr;
use std::fmt;

/// A window: its front and its length, or `none`.
#[derive(Clone, Copy)]
pub struct Window(pub Option<(usize, usize)>);

impl fmt::Display for Window {
    ghost output = { λ w. Some (window_text w.0) };

    fn fmt<W: fmt::Write>(&self, f: &mut fmt::Formatter<W>) -> fmt::Result {
        match self.0 {
            None => f.write_str("none"),
            Some((front, length)) => write!(f, "{front} {length}"),
        }
    }
}

/// A destination: its address, or `none`.
#[derive(Clone, Copy)]
pub struct Destination(pub Option<Addr>);

impl fmt::Display for Destination {
    ghost output = { λ d. Some (destination_text d.0) };

    fn fmt<W: fmt::Write>(&self, f: &mut fmt::Formatter<W>) -> fmt::Result {
        match self.0 {
            None => f.write_str("none"),
            Some(address) => write!(f, "{address}"),
        }
    }
}
