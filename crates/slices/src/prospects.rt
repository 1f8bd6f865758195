//! Which blocks of executions are worth asking, whether they are forbidden as a whole or allowed. No contract rests on it: what is told here shows
//! in speed alone.

ghost use Rattle.std.specs.Prelude.{◌≤◌};
ghost use Rattle.slices.specs.declared.prospects.TheConstants.{MOST_DEPTHS};

/// How many depths of blocks are asked at most. A block has at least twice as many numbers as one of the next depth, and no space has
/// more than 2^32.
const MOST_DEPTHS: usize = 32;

/// What one judgement costs, in the parts in which all costs are counted.
const JUDGEMENT: u64 = 64;

/// What it costs to ask a block: to show what its executions have in common, and to judge that.
const QUESTION: u64 = 96;

/// What it costs to pass over a block for a reason that was learned.
const PASSING: u64 = 12;

/// What a block must cost to be worth asking whether it is allowed: where it is, it is counted by the writes that stand last, which costs as well.
const LEAST: u64 = 3 * QUESTION;

/// What a depth saves at most: so much is spent on asking where it gains no more.
const MOST_SAVINGS: u64 = 16 * JUDGEMENT;

/// What is spent before a block is looked at.
const FIRST: u64 = 16 * JUDGEMENT;

/// What may be spent on asking.
#[derive(Clone, Copy)]
struct Savings(u64);

impl Savings {
    /// Not enough for the first question: a block that to ask might have spared lets the next be asked.
    fn new() -> Self {
        Savings(QUESTION - 1)
    }

    /// Adds to them.
    fn save(&mut self, parts: u64) {
        self.0 = self.0.saturating_add(parts).min(MOST_SAVINGS);
    }

    /// Whether there is enough for a question.
    fn suffice(self) -> bool {
        self.0 >= QUESTION
    }

    /// Pays for a question.
    fn pay(&mut self) {
        self.0 = self.0.saturating_sub(QUESTION);
    }
}

/// The blocks of one depth.
#[derive(Clone, Copy)]
struct Depth {
    /// The number behind the block at hand.
    end: u64,
    /// What was spent before the block at hand was entered.
    entered: u64,
    /// What a block costs that isn't passed over, by those so far; nothing where there was none.
    worth: u64,
    /// For asking whether a block is forbidden.
    refuting: Savings,
    /// For asking whether it is allowed.
    opening: Savings,
}

impl Depth {
    /// No block yet.
    fn new() -> Self {
        Depth {
            end: 0,
            entered: 0,
            worth: 0,
            refuting: Savings::new(),
            opening: Savings::new(),
        }
    }

    /// Leaves the block at hand. If it was forbidden as a whole, or allowed, to ask that might have spared what it cost.
    fn leave(&mut self, spent: u64, forbidden: bool, allowed: bool) {
        let cost = spent.saturating_sub(self.entered);
        if forbidden && cost > JUDGEMENT {
            self.refuting.save(cost / JUDGEMENT);
        }
        if allowed && cost > JUDGEMENT {
            self.opening.save(cost / JUDGEMENT);
        }
        self.worth = if self.worth == 0 {
            cost
        } else {
            self.worth / 4 * 3 + cost / 4
        };
    }

    /// Whether a block is worth asking whether it is allowed.
    fn may_open(&self) -> bool {
        self.worth > LEAST && self.opening.suffice()
    }
}

/// The blocks of a walk: those that the number at hand is in, from the coarsest inwards, and what asking has brought at each depth.
pub(crate) struct Prospects {
    depths: [Depth; MOST_DEPTHS],
    /// How many blocks the number at hand is known to be in.
    entered: usize,
    /// The number at hand.
    number: u64,
    /// What was spent so far.
    spent: u64,
    /// What had been spent when an execution was allowed last.
    allowed: u64,
    /// What had been spent when one was forbidden last.
    forbidden: u64,
    /// The first depth whose block was entered at the number at hand and is worth asking whether it is allowed; if there is none, one behind all.
    opens: usize,
    ghost few: { entered ≤ MOST_DEPTHS },
}

// A function of its own: whoever holds one drops it by a call.
impl Drop for Prospects {
    fn drop(self) {
        let Prospects {
            depths: _,
            entered: _,
            number: _,
            spent: _,
            allowed: _,
            forbidden: _,
            opens: _,
        } = self;
    }
}

impl Prospects {
    /// Those of a walk that hasn't begun.
    pub(crate) fn new() -> Self {
        Prospects {
            depths: [Depth::new(); MOST_DEPTHS],
            entered: 0,
            number: 0,
            spent: 0,
            allowed: 0,
            forbidden: 0,
            opens: MOST_DEPTHS,
        }
    }

    /// Those of another walk, from this number on. What asking has brought so far is known of it, too, and where it goes on behind the number
    /// at hand, it is still in the blocks that reach so far.
    pub(crate) fn begin(&mut self, from: u64) {
        if from < self.number {
            self.entered = 0;
        }
    }

    /// Whether so little was spent that no block is worth a look.
    pub(crate) fn are_early(&self) -> bool {
        self.spent < FIRST
    }

    /// Notes that an execution was judged, and whether it was allowed.
    pub(crate) fn note(&mut self, allowed: bool) {
        self.spend(JUDGEMENT);
        if allowed {
            self.allowed = self.spent;
        } else {
            self.forbidden = self.spent;
        }
    }

    /// Notes that executions were passed over without a question.
    pub(crate) fn forbid(&mut self) {
        self.spend(PASSING);
        self.forbidden = self.spent;
    }

    fn spend(&mut self, parts: u64) {
        self.spent = self.spent.saturating_add(parts);
    }

    /// Leaves the blocks that end at or before this number, and tells in how many others it is.
    pub(crate) fn leave(&mut self, number: u64) -> usize {
        self.number = number;
        while self.entered > 0 {
            let depth = &mut self.depths[self.entered - 1];
            if number < depth.end {
                break;
            }
            let forbidden = self.allowed <= depth.entered;
            let allowed = self.forbidden <= depth.entered;
            depth.leave(self.spent, forbidden, allowed);
            self.entered -= 1;
        }
        self.opens = MOST_DEPTHS;
        self.entered
    }

    /// Enters the block of a depth, with the number behind it.
    pub(crate) fn enter(&mut self, depth: usize, end: u64) {
        if let Some(block) = self.depths.get_mut(depth) {
            block.end = end;
            block.entered = self.spent;
            self.entered = depth + 1;
            if block.may_open() {
                self.opens = self.opens.min(depth);
            }
        }
    }

    /// Whether the block of a depth is worth asking whether it is forbidden. If so, it is paid for.
    pub(crate) fn pay(&mut self, depth: usize) -> bool {
        let paid = match self.depths.get_mut(depth) {
            Some(block) if block.worth > QUESTION && block.refuting.suffice() => {
                block.refuting.pay();
                true
            }
            _ => false,
        };
        if paid {
            self.spend(QUESTION);
        }
        paid
    }

    /// Notes that the block of a depth was passed over.
    pub(crate) fn earn(&mut self, depth: usize) {
        if let Some(block) = self.depths.get_mut(depth) {
            block.refuting.save(block.worth);
        }
        self.forbidden = self.spent;
    }

    /// From which depth on the blocks that were entered at the number at hand may be worth asking whether they are allowed.
    pub(crate) fn opens(&self) -> usize {
        self.opens
    }

    /// Whether the block of a depth is worth asking whether it is allowed.
    pub(crate) fn may_open(&self, depth: usize) -> bool {
        match self.depths.get(depth) {
            Some(block) => block.may_open(),
            None => false,
        }
    }

    /// Pays for asking that.
    pub(crate) fn pay_open(&mut self, depth: usize) {
        if let Some(block) = self.depths.get_mut(depth) {
            block.opening.pay();
        }
        self.spend(QUESTION);
    }

    /// Notes that the block of a depth was allowed as a whole, so that it isn't gone through.
    pub(crate) fn earn_open(&mut self, depth: usize) {
        if let Some(block) = self.depths.get_mut(depth) {
            block.opening.save(block.worth);
            self.entered = self.entered.min(depth);
        }
        self.allowed = self.spent;
    }
}
