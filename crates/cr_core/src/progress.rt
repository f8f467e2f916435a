//! How far one unit is.

ghost use Rattle.std.specs.Prelude.{◌≡◌, ◌<◌};
ghost use Rattle.cr_core.specs.Assignment as spec;

use crate::Why;

/// Who holds a unit: at most two workers.
#[derive(Clone, Copy)]
pub enum Holders {
    Nobody,
    One(u32),
    Two(u32, u32),
}

/// How far one unit is.
#[derive(Clone, Copy)]
pub struct Progress {
    pub holders: Holders,
    pub strikes: u32,
    pub assigned: u32,
    pub is_dry: bool,
    pub is_answered: bool,
}

impl Holders {
    fn is_unheld(self) -> bool
        ensures { result ≡ spec.is_unheld self }
    {
        match self {
            Holders::Nobody => true,
            Holders::One(_) | Holders::Two(_, _) => false,
        }
    }

    fn is_held_by(self, worker: u32) -> bool
        ensures { result ≡ spec.is_held_by worker self }
    {
        match self {
            Holders::Nobody => false,
            Holders::One(v) => v == worker,
            Holders::Two(v, w) => v == worker || w == worker,
        }
    }

    fn is_held_once_by_another(self, worker: u32) -> bool
        ensures { result ≡ spec.is_held_once_by_another worker self }
    {
        match self {
            Holders::One(v) => v != worker,
            Holders::Nobody | Holders::Two(_, _) => false,
        }
    }

    fn joined_by(self, worker: u32) -> Holders
        ensures { result ≡ spec.joined_by worker self }
    {
        match self {
            Holders::Nobody => Holders::One(worker),
            Holders::One(v) => Holders::Two(v, worker),
            Holders::Two(v, w) => Holders::Two(v, w),
        }
    }

    fn left_by(self, worker: u32) -> Holders
        ensures { result ≡ spec.left_by worker self }
    {
        match self {
            Holders::One(v) if v == worker => Holders::Nobody,
            Holders::Two(v, w) if v == worker => Holders::One(w),
            Holders::Two(v, w) if w == worker => Holders::One(v),
            others => others,
        }
    }
}

impl Progress {
    pub fn untouched() -> Progress
        ensures { result ≡ spec.untouched }
    {
        Progress {
            holders: Holders::Nobody,
            strikes: 0,
            assigned: 0,
            is_dry: false,
            is_answered: false,
        }
    }

    pub fn is_held_by(&self, worker: u32) -> bool
        ensures { result ≡ spec.is_held_by worker self.now.holders }
    {
        self.holders.is_held_by(worker)
    }

    pub fn may_begin(&self, retries: u32) -> bool
        ensures { result ≡ spec.may_begin retries self.now }
    {
        self.is_open(retries) && self.holders.is_unheld()
    }

    pub fn may_back_up(&self, retries: u32, worker: u32) -> bool
        ensures { result ≡ spec.may_back_up retries worker self.now }
    {
        self.is_open(retries) && self.holders.is_held_once_by_another(worker)
    }

    fn is_open(&self, retries: u32) -> bool
        ensures { result ≡ spec.is_open retries self.now }
    {
        !self.is_answered && self.strikes <= retries && !self.is_dry
    }

    pub fn when_assigned(self, worker: u32) -> Progress
        requires { self.assigned < 16 }
        ensures { result ≡ spec.when_assigned worker self }
    {
        Progress {
            holders: self.holders.joined_by(worker),
            assigned: self.assigned + 1,
            ..self
        }
    }

    pub fn when_answered(self, worker: u32) -> Progress
        ensures { result ≡ spec.when_answered worker self }
    {
        Progress {
            holders: self.holders.left_by(worker),
            is_answered: true,
            ..self
        }
    }

    pub fn when_lost(self, worker: u32, why: Why) -> Progress
        requires { self.strikes < 16 }
        ensures { result ≡ spec.when_lost worker why self }
    {
        let (strikes, is_dry) = match why {
            Why::Struck => (self.strikes + 1, self.is_dry),
            Why::Memory | Why::Undriven => (self.strikes, true),
            Why::Cancelled => (self.strikes, self.is_dry),
        };
        Progress {
            holders: self.holders.left_by(worker),
            strikes,
            is_dry,
            ..self
        }
    }
}
