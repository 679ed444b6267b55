//! Numbers of geoms, providers, consumers, handles and bios. Each kind counts from 1, and no number comes twice.
ghost use Rattle.std.specs.Prelude.{◌≡◌};

use std::marker::Model;

/// The number of a geom, which contracts see as itself.
#[derive(Clone, Copy, Debug, PartialEq, Eq, PartialOrd, Ord)]
pub struct GeomId {
    number: u64,
}

impl Model for GeomId {
    ghost use Rattle.std.specs.Prelude.{ℕ};

    ghost Value = { ℕ };

    ghost view = { λ id. id.number };

    ghost inverse = { λ n. record { number = n } };
}

impl GeomId {
    pub fn new(number: u64) -> GeomId
        ensures { result ≡ number }
    {
        GeomId { number }
    }

    pub fn number(&self) -> u64
        ensures { result ≡ self.now }
    {
        self.number
    }
}

/// The number of a provider, which contracts see as itself.
#[derive(Clone, Copy, Debug, Default, PartialEq, Eq, PartialOrd, Ord)]
pub struct ProvId {
    number: u64,
}

impl Model for ProvId {
    ghost use Rattle.std.specs.Prelude.{ℕ};

    ghost Value = { ℕ };

    ghost view = { λ id. id.number };

    ghost inverse = { λ n. record { number = n } };
}

impl ProvId {
    pub fn new(number: u64) -> ProvId
        ensures { result ≡ number }
    {
        ProvId { number }
    }

    pub fn number(&self) -> u64
        ensures { result ≡ self.now }
    {
        self.number
    }
}

/// The number of a consumer, which contracts see as itself.
#[derive(Clone, Copy, Debug, Default, PartialEq, Eq, PartialOrd, Ord)]
pub struct ConsId {
    number: u64,
}

impl Model for ConsId {
    ghost use Rattle.std.specs.Prelude.{ℕ};

    ghost Value = { ℕ };

    ghost view = { λ id. id.number };

    ghost inverse = { λ n. record { number = n } };
}

impl ConsId {
    pub fn new(number: u64) -> ConsId
        ensures { result ≡ number }
    {
        ConsId { number }
    }

    pub fn number(&self) -> u64
        ensures { result ≡ self.now }
    {
        self.number
    }
}

/// The number of a handle, which contracts see as itself.
#[derive(Clone, Copy, Debug, PartialEq, Eq, PartialOrd, Ord)]
pub struct HandleId {
    number: u64,
}

impl Model for HandleId {
    ghost use Rattle.std.specs.Prelude.{ℕ};

    ghost Value = { ℕ };

    ghost view = { λ id. id.number };

    ghost inverse = { λ n. record { number = n } };
}

impl HandleId {
    pub fn new(number: u64) -> HandleId
        ensures { result ≡ number }
    {
        HandleId { number }
    }

    pub fn number(&self) -> u64
        ensures { result ≡ self.now }
    {
        self.number
    }
}

/// The number of a bio, which contracts see as itself.
#[derive(Clone, Copy, Debug, PartialEq, Eq, PartialOrd, Ord)]
pub struct BioId {
    number: u64,
}

impl Model for BioId {
    ghost use Rattle.std.specs.Prelude.{ℕ};

    ghost Value = { ℕ };

    ghost view = { λ id. id.number };

    ghost inverse = { λ n. record { number = n } };
}

impl BioId {
    pub fn new(number: u64) -> BioId
        ensures { result ≡ number }
    {
        BioId { number }
    }

    pub fn number(&self) -> u64
        ensures { result ≡ self.now }
    {
        self.number
    }
}
