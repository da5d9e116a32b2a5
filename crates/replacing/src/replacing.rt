//! Programs that are replaced while a server runs. Each is verified in slices, so that datagrams are served meanwhile.

use crate::files::{UnusableFile, read_regular};
use crate::watched::Watched;
use insn::MAX_SLOTS;
use loader::{LoadError, LoadProgress, LoadRemains, Loaded, Loading};
use relay::Relay;
use setup::{ProgramError, RefusedProgram};
use shadow::Shadows;
use std::io::Write;
use std::mem;
use std::rt::Files;

/// By how much a verification continues before the clock is read again, by weight: some ten microseconds.
const SLICE: usize = 8_192;

/// How many units of work are done of freeing what a verification has kept, before the clock is read again.
const FREED: usize = 64;

/// The most bytes of a program: eight for each slot.
const LONGEST: u64 = MAX_SLOTS as u64 * 8;

/// The file of a side's program, if one is given, and the bytes that it had.
#[derive(Drop)]
pub struct ProgramFile<'a> {
    pub path: Option<&'a str>,
    pub bytes: Option<Vec<u8>>,
}

/// A program that is to replace the one that runs.
#[derive(Drop)]
enum Successor {
    /// There is none.
    Nothing,
    /// Its bytes are being verified.
    Verifying { loading: Loading, bytes: Vec<u8> },
    /// It is loaded from these bytes.
    Ready { loaded: Loaded, bytes: Vec<u8> },
}

/// The program of a side, and the file that it is replaced from.
#[derive(Drop)]
struct WatchedProgram<'a> {
    /// The file, if one is given.
    path: Option<&'a str>,
    /// The bytes of the program that runs, if it isn't the shipped one, and those that the file had when it was last
    /// refused.
    watched: Watched,
    /// Why the file couldn't be used when it was last read.
    unusable: Option<UnusableFile>,
    successor: Successor,
    /// What the last verification has kept, which is freed gradually.
    remains: Option<LoadRemains>,
}

/// What two programs are replaced in.
pub trait ProgramPair {
    /// Takes other programs for the sides for which there is one.
    fn set_programs(&mut self, client: Option<Loaded>, peer: Option<Loaded>);
}

impl ProgramPair for Relay {
    fn set_programs(&mut self, client: Option<Loaded>, peer: Option<Loaded>) {
        Relay::set_programs(self, client, peer);
    }
}

impl ProgramPair for Shadows {
    fn set_programs(&mut self, client: Option<Loaded>, peer: Option<Loaded>) {
        Shadows::set_programs(self, client, peer);
    }
}

/// The programs of both sides, of a relay or of its shadows.
#[derive(Drop)]
pub struct Sides<'a> {
    client: WatchedProgram<'a>,
    peer: WatchedProgram<'a>,
}

impl Successor {
    /// Returns whether there is one, of these bytes.
    fn is_of(&self, other: &[u8]) -> bool {
        match self {
            Successor::Nothing => false,
            Successor::Verifying { bytes, .. } | Successor::Ready { bytes, .. } => bytes.as_slice()
                == other,
        }
    }

    /// Returns whether there is one.
    fn is_some(&self) -> bool {
        match self {
            Successor::Nothing => false,
            _ => true,
        }
    }

    /// Returns whether it is being verified.
    fn is_verifying(&self) -> bool {
        match self {
            Successor::Verifying { .. } => true,
            _ => false,
        }
    }
}

impl<'a> WatchedProgram<'a> {
    fn new(file: ProgramFile<'a>) -> WatchedProgram<'a> {
        WatchedProgram {
            path: file.path,
            watched: Watched::new(file.bytes),
            unusable: None,
            successor: Successor::Nothing,
            remains: None,
        }
    }

    /// Returns whether there is a next program, or what is left of a verification.
    fn is_busy(&self) -> bool {
        self.successor.is_some() || self.remains.is_some()
    }

    /// Gives the next program up, if there is one.
    fn withdraw(&mut self) {
        if let Successor::Verifying { loading, .. } = mem::replace(
            &mut self.successor,
            Successor::Nothing,
        ) {
            self.remains = Some(loading.into_remains());
        }
    }

    /// Frees some of what the last verification has kept.
    fn free(&mut self) {
        if let Some(remains) = mem::replace(&mut self.remains, None) {
            self.remains = remains.free(FREED);
        }
    }

    /// Reports that the file is refused, and keeps its bytes, so that it is reported once. Where memory ran out it is
    /// tried again.
    fn refuse<E: Write>(&mut self, err: &mut E, error: LoadError, bytes: Vec<u8>) {
        let error = ProgramError::from(error);
        let is_memory = error == ProgramError::Memory;
        if let Some(path) = self.path {
            let _ = if is_memory {
                writeln!(err, "{error} in {path}")
            } else {
                writeln!(err, "{}", RefusedProgram { path, error })
            };
        }
        if !is_memory {
            self.watched.refuse(bytes);
        }
    }

    /// Reports that the program is given up, since it takes too long to verify, and keeps its bytes, so that it is
    /// reported once.
    fn give_up<E: Write>(&mut self, err: &mut E, bytes: Vec<u8>) {
        if let Some(path) = self.path {
            let _ = writeln!(err, "cannot use {path}: it takes too long to verify");
        }
        self.watched.refuse(bytes);
    }

    /// Reads the file, if there is one. One that can't be used is reported once, until it can be.
    fn read<R: Files + AllocGlobal, E: Write>(&mut self, rt: &R, err: &mut E) -> Option<Vec<u8>> {
        let path = self.path?;
        match read_regular(rt, path, LONGEST) {
            Ok(bytes) => {
                self.unusable = None;
                bytes
            }
            Err(unusable) => {
                if self.unusable != Some(unusable) {
                    let _ = writeln!(err, "cannot use {path}: {unusable}");
                }
                self.unusable = Some(unusable);
                None
            }
        }
    }

    /// Begins to load the program of the file, where its bytes are others than those that run, are verified, and were
    /// last refused. A file that can't be read or used changes nothing.
    fn load_if_changed<R: Files + AllocGlobal, E: Write>(&mut self, rt: &R, err: &mut E) {
        let Some(bytes) = self.read(rt, err) else {
            return;
        };
        if self.successor.is_of(&bytes) {
            return;
        }
        self.withdraw();
        if !self.watched.has_changed(&bytes) {
            return;
        }
        match Loading::new(rt.alloc(), &bytes) {
            Ok(loading) => self.successor = Successor::Verifying { loading, bytes },
            Err(error) => self.refuse(err, error, bytes),
        }
    }

    /// Continues to verify the next program by a slice, if one is being verified, and to free what the last
    /// verification has kept.
    fn advance<E: Write>(&mut self, err: &mut E) {
        self.free();
        match mem::replace(&mut self.successor, Successor::Nothing) {
            Successor::Verifying { loading, bytes } => match loading.advance(SLICE) {
                LoadProgress::Going(loading) => self.successor = Successor::Verifying {
                    loading,
                    bytes,
                },
                LoadProgress::GivenUp(remains) => {
                    self.remains = Some(remains);
                    self.give_up(err, bytes);
                }
                LoadProgress::Ended(result, remains) => {
                    self.remains = Some(remains);
                    match result {
                        Ok(loaded) => self.successor = Successor::Ready { loaded, bytes },
                        Err(refusal) => self.refuse(err, LoadError::from(refusal), bytes),
                    }
                }
            },
            successor => self.successor = successor,
        }
    }

    /// Takes the next program, if it is loaded, as the one that runs, and reports it.
    fn take_loaded<E: Write>(&mut self, err: &mut E) -> Option<Loaded> {
        match mem::replace(&mut self.successor, Successor::Nothing) {
            Successor::Ready { loaded, bytes } => {
                if let Some(path) = self.path {
                    let _ = writeln!(err, "loaded {path}");
                }
                self.watched.put_in_use(bytes);
                Some(loaded)
            }
            successor => {
                self.successor = successor;
                None
            }
        }
    }
}

impl<'a> Sides<'a> {
    /// Returns two programs, each with its file and the bytes that this had, if one is given.
    pub fn new(client: ProgramFile<'a>, peer: ProgramFile<'a>) -> Sides<'a> {
        Sides {
            client: WatchedProgram::new(client),
            peer: WatchedProgram::new(peer),
        }
    }

    /// Returns whether the program of a side comes from a file.
    pub fn has_files(&self) -> bool {
        self.client.path.is_some() || self.peer.path.is_some()
    }

    /// Returns whether a program is to replace one that runs, or what is left of a verification is to be freed.
    pub fn is_replacing(&self) -> bool {
        self.client.is_busy() || self.peer.is_busy()
    }

    /// Begins to load the program for clients' datagrams, if its file has changed.
    pub fn load_client_if_changed<R: Files + AllocGlobal, E: Write>(
        &mut self,
        rt: &R,
        err: &mut E,
    ) {
        self.client.load_if_changed(rt, err);
    }

    /// Begins to load the program for peers' datagrams, if its file has changed.
    pub fn load_peer_if_changed<R: Files + AllocGlobal, E: Write>(&mut self, rt: &R, err: &mut E) {
        self.peer.load_if_changed(rt, err);
    }

    /// Continues to verify by a slice of each program. Where all are verified, those that are loaded replace the ones
    /// that run; a program that is refused leaves the one that runs. Returns whether one was replaced.
    /// See docs/DECISIONS.md, "Verification in slices".
    pub fn advance<P: ProgramPair, E: Write>(&mut self, programs: &mut P, err: &mut E) -> bool {
        self.client.advance(err);
        self.peer.advance(err);
        if self.client.successor.is_verifying() || self.peer.successor.is_verifying() {
            return false;
        }
        let client = self.client.take_loaded(err);
        let peer = self.peer.take_loaded(err);
        let is_replaced = client.is_some() || peer.is_some();
        programs.set_programs(client, peer);
        is_replaced
    }
}
