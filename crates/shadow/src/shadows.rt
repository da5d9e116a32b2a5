//! The shadows of the two sides of a relay.

ghost use Rattle.std.specs.Prelude.{◌≤◌};
ghost use Rattle.semantics.specs.declared.limits.TheConstants.{MAX_DATAGRAM};

use crate::comparing::ChoiceComparison;
use crate::counts::ShadowCounts;
use crate::shadow::Shadow;
use events::{Meta, Source};
use loader::Loaded;
use machine::Side;
use relay::{Choice, Relay, side_of};
use semantics::MAX_DATAGRAM;
use std::alloc::{AllocError, Global};

/// The shadow of a side, if there is one, and how it compares with the program.
#[derive(Drop)]
struct SideShadow {
    shadow: Option<Shadow>,
    counts: ShadowCounts,
}

/// The shadows of the two sides, and how they compare with the programs.
#[derive(Drop)]
pub struct Shadows {
    client: SideShadow,
    peer: SideShadow,
}

impl SideShadow {
    /// Returns that of a side without a shadow.
    const fn none() -> SideShadow {
        SideShadow {
            shadow: None,
            counts: ShadowCounts::new(),
        }
    }

    /// Returns that of a program, if there is one, and takes its memory.
    fn new(alloc: Global, program: Option<Loaded>) -> Result<SideShadow, AllocError> {
        let shadow = match program {
            Some(program) => Some(Shadow::new(alloc, program)?),
            None => None,
        };
        Ok(SideShadow {
            shadow,
            counts: ShadowCounts::new(),
        })
    }

    /// Takes another program, where there is a shadow.
    fn replace(&mut self, program: Option<Loaded>) {
        if let (Some(shadow), Some(program)) = (&mut self.shadow, program) {
            shadow.replace(program);
        }
    }
}

impl Shadows {
    /// Returns no shadows.
    pub const fn none() -> Shadows {
        Shadows {
            client: SideShadow::none(),
            peer: SideShadow::none(),
        }
    }

    /// Returns the shadows of these programs, and takes their memory. `None` is that a side has no shadow.
    ///
    /// # Errors
    /// Where memory runs out.
    pub fn new(
        alloc: Global,
        client: Option<Loaded>,
        peer: Option<Loaded>,
    ) -> Result<Shadows, AllocError> {
        Ok(Shadows {
            client: SideShadow::new(alloc, client)?,
            peer: SideShadow::new(alloc, peer)?,
        })
    }

    /// Takes other programs for the sides for which there is one, and which have a shadow. What was counted stays.
    pub fn set_programs(&mut self, client: Option<Loaded>, peer: Option<Loaded>) {
        self.client.replace(client);
        self.peer.replace(peer);
    }

    /// Returns whether a side has a shadow.
    pub fn has_some(&self) -> bool {
        self.client.shadow.is_some() || self.peer.shadow.is_some()
    }

    /// Returns how the shadow of a side compares with its program, if it has one.
    pub fn counts_of(&self, side: Side) -> Option<&ShadowCounts> {
        let SideShadow { shadow, counts } = match side {
            Side::Client => &self.client,
            Side::Peer => &self.peer,
        };
        shadow.as_ref().map(|_| counts)
    }

    /// Returns the shadow of the side of a source, if it has one, and its counts.
    #[inline(always)]
    fn of(&mut self, from: &Source) -> &mut SideShadow {
        match side_of(from) {
            Side::Client => &mut self.client,
            Side::Peer => &mut self.peer,
        }
    }

    /// Lets the shadow of the side of a datagram, the first `n` bytes of a relay's room, choose what it would do with
    /// it, if there is one. The relay stays as it is.
    #[inline(always)]
    pub fn choose(&mut self, relay: &Relay, meta: &Meta, n: usize)
        requires { n ≤ MAX_DATAGRAM }
    {
        if let Some(shadow) = &mut self.of(&meta.from).shadow {
            shadow.choose(relay, meta, n);
        }
    }

    /// Compares what the shadow of the side of the last datagram would do with it, if there is one, with what the
    /// program has done, and counts it.
    #[inline(always)]
    pub fn compare_with(
        &mut self,
        from: &Source,
        done: Choice<'_>,
    ) -> Option<(Side, ChoiceComparison)> {
        let SideShadow { shadow, counts } = self.of(from);
        match shadow {
            Some(shadow) => {
                let comparison = shadow.compare_with(done);
                counts.count(comparison);
                Some((side_of(from), comparison))
            }
            None => None,
        }
    }
}
