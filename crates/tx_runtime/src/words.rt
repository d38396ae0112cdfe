//! A thread's mode, its attempts and its counter.
ghost use Rattle.std.specs.Prelude.{◌≡◌, true};
ghost use Rattle.tx_runtime.specs.declared.words.Mode.TheVariants.{In};
ghost use Rattle.tx_runtime.specs.Words.{opening_words, begun, begin_act, cuts, cut, cut_act, ended, end_act, ticked, undone};

use std::marker::Model;

const TRIES: u32 = 3;

const THRESHOLD: u64 = 1000;

/// Where a thread is.
#[derive(Clone, Copy, PartialEq, Eq)]
pub enum Mode {
    /// Outside transactions, and ready to begin one.
    Out,
    /// Inside a transaction.
    In,
    /// Outside, and without transactions until it next ends one.
    Plain,
}

/// What a thread's call of the runtime asks of transactional memory.
#[derive(Clone, Copy, PartialEq, Eq)]
pub enum Act {
    /// Nothing.
    Nothing,
    /// A transaction begins.
    Xbegin,
    /// The transaction ends.
    Xend,
}

/// The runtime's words of one thread.
#[derive(Drop)]
pub struct Words {
    mode: Mode,
    attempts: u32,
    counter: u64,
}

impl Model for Words {
    ghost use Rattle.std.specs.Prelude.{◌+◌, ◌≤◌};
    ghost use Rattle.tx_runtime.specs.Words.{WordsParts, tries, at_stake};

    ghost Value = { WordsParts };

    ghost view = { λ w. record {
      mode = w.mode;
      attempts = w.attempts;
      counter = w.counter;
    } };

    ghost invariant = { λ w. w.attempts + at_stake w.mode ≤ tries };
}

impl Words {
    /// The words of a thread that is made: it is outside, with no attempt and no work counted.
    pub fn new() -> Words
        ensures { result ≡ opening_words }
    {
        Words {
            mode: Mode::Out,
            attempts: 0,
            counter: 0,
        }
    }

    /// Where the thread is.
    pub fn mode(&self) -> Mode
        ensures { result ≡ self.now.mode }
    {
        self.mode
    }

    /// How many transactions were aborted since the thread last ended one or gave them up; at most three.
    pub fn attempts(&self) -> u32
        ensures { result ≡ self.now.attempts }
    {
        self.attempts
    }

    /// The work counted since the last `begin` that acted.
    pub fn counter(&self) -> u64
        ensures { result ≡ self.now.counter }
    {
        self.counter
    }

    /// Begins a transaction where the thread is outside and has attempts left; where it has none left it gives transactions up.
    pub fn begin(&mut self) -> Act
        ensures act { result ≡ begin_act self.old }
        ensures words { self.new ≡ begun self.old }
    {
        match self.mode {
            Mode::In | Mode::Plain => return Act::Nothing,
            Mode::Out => {}
        }
        self.counter = 0;
        if self.attempts < TRIES {
            self.mode = Mode::In;
            return Act::Xbegin;
        }
        self.mode = Mode::Plain;
        self.attempts = 0;
        Act::Nothing
    }

    /// Whether a `cut` ends: enough work was counted.
    pub fn cuts(&self) -> bool
        ensures { result ≡ cuts self.now }
    {
        self.counter >= THRESHOLD
    }

    /// Does as `end` where enough work was counted, and else nothing.
    pub fn cut(&mut self) -> Act
        ensures act { result ≡ cut_act self.old }
        ensures words { self.new ≡ cut self.old }
    {
        if !self.cuts() {
            return Act::Nothing;
        }
        self.end()
    }

    /// Ends the transaction, if the thread is inside one; then it is outside, with all its attempts.
    pub fn end(&mut self) -> Act
        ensures act { result ≡ end_act self.old }
        ensures words { self.new ≡ ended self.old }
    {
        let act = match self.mode {
            Mode::In => Act::Xend,
            Mode::Out | Mode::Plain => Act::Nothing,
        };
        self.mode = Mode::Out;
        self.attempts = 0;
        act
    }

    /// Counts work; the count stays at its last number.
    pub fn tick(&mut self, n: u32)
        ensures { self.new ≡ ticked n self.old }
    {
        self.counter = self.counter.saturating_add(n as u64);
    }

    /// The thread's transaction was aborted: it is outside, and one attempt is used up.
    pub fn undone(&mut self)
        requires { self.old.mode ≡ In }
        ensures { self.new ≡ undone self.old }
    {
        self.mode = Mode::Out;
        self.attempts += 1;
    }
}
