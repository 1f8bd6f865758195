//! The gate of two workers: it holds nobody, or each piece until two have entered or until the book is closed, and notes what is amiss.

use slices::Piece;
use std::sync::Wait;
use std::sync::atomic::{AtomicU64, Ordering};
use std::thread;
use std::time::{Clock, Duration};
use workers::Gate;

/// A pass's place, which notes what is amiss: a piece that comes in while another is in, is evaluated outside, or leaves without having come in.
#[derive(Drop)]
pub struct Doorway {
    /// The claim of the piece that is in, or 0.
    inside: AtomicU64,
    /// The claim of the piece that left last.
    last: AtomicU64,
    amiss: AtomicU64,
}

impl Doorway {
    fn new() -> Self {
        Doorway {
            inside: AtomicU64::new(0),
            last: AtomicU64::new(0),
            amiss: AtomicU64::new(0),
        }
    }

    /// Notes whether a piece is in, or none by claim 0.
    fn expect(&self, claim: u32, found: u64) {
        if found != u64::from(claim) {
            self.amiss.fetch_add(1, Ordering::SeqCst);
        }
    }

    fn enter(&self, piece: &Piece) {
        let found = self.inside.swap(u64::from(piece.claim()), Ordering::SeqCst);
        self.expect(0, found);
    }

    pub fn evaluate(&self, piece: &Piece) {
        self.expect(piece.claim(), self.inside.load(Ordering::SeqCst));
    }

    fn leave(&self, piece: &Piece) {
        self.expect(piece.claim(), self.inside.swap(0, Ordering::SeqCst));
        self.last.store(u64::from(piece.claim()), Ordering::SeqCst);
    }

    /// Whether nothing was amiss, no piece is in, and the last that left was of this claim.
    pub fn is_left_by(&self, claim: u32) -> bool {
        self.amiss.load(Ordering::SeqCst) == 0
            && self.inside.load(Ordering::SeqCst) == 0
            && self.last.load(Ordering::SeqCst) == u64::from(claim)
    }
}

/// Until when a gate holds a piece.
#[derive(Clone, Copy)]
pub enum Holds {
    Never,
    /// Until two pieces have entered.
    Two,
    /// Until it is told that the book is closed.
    Closed,
}

/// Watches two passes, whose places it knows, and holds each piece for at most 10,000 turns of a millisecond.
#[derive(Drop)]
pub struct Watching<'a, C> {
    clock: &'a C,
    holds: Holds,
    /// The place of the first pass. The second is behind it.
    place: usize,
    pub first: Doorway,
    pub second: Doorway,
    entered: AtomicU64,
    closed: AtomicU64,
    /// How many pieces were held in vain, and how many were told at another place.
    amiss: AtomicU64,
}

impl<'a, C: Clock> Watching<'a, C> {
    pub fn new(clock: &'a C, holds: Holds, place: usize) -> Self {
        Watching {
            clock,
            holds,
            place,
            first: Doorway::new(),
            second: Doorway::new(),
            entered: AtomicU64::new(0),
            closed: AtomicU64::new(0),
            amiss: AtomicU64::new(0),
        }
    }

    /// How many pieces have entered, or None where one was held in vain or told at another place.
    pub fn entered(&self) -> Option<u64> {
        if self.amiss.load(Ordering::SeqCst) == 0 {
            Some(self.entered.load(Ordering::SeqCst))
        } else {
            None
        }
    }

    fn door(&self, pass: usize) -> &Doorway {
        if pass == self.place {
            return &self.first;
        }
        if pass != self.place.saturating_add(1) {
            self.amiss.fetch_add(1, Ordering::SeqCst);
        }
        &self.second
    }

    /// Whether a piece needn't be held any longer.
    fn is_open(&self) -> bool {
        match self.holds {
            Holds::Never => true,
            Holds::Two => self.entered.load(Ordering::SeqCst) >= 2,
            Holds::Closed => self.closed.load(Ordering::SeqCst) > 0,
        }
    }

    /// Waits until a piece is held, for at most as long.
    pub fn wait_held(&self) {
        for _ in 0..10_000 {
            if self.entered.load(Ordering::SeqCst) > 0 {
                return;
            }
            thread::sleep(self.clock, Duration::from_millis(1));
        }
    }

    pub fn tell_closed(&self) {
        self.closed.store(1, Ordering::SeqCst);
    }
}

impl<'a, C: Clock> Gate for Watching<'a, C> {
    fn enter<R: Wait>(&self, _rt: &R, pass: usize, piece: &Piece) {
        self.door(pass).enter(piece);
        self.entered.fetch_add(1, Ordering::SeqCst);
        for _ in 0..10_000 {
            if self.is_open() {
                return;
            }
            thread::sleep(self.clock, Duration::from_millis(1));
        }
        self.amiss.fetch_add(1, Ordering::SeqCst);
    }

    fn leave<R: Wait>(&self, _rt: &R, pass: usize, piece: &Piece) {
        self.door(pass).leave(piece);
    }
}
