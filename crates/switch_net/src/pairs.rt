//! Pairs of nets.

ghost use Rattle.std.specs.Prelude.{◌≡◌, ◌<◌, nat_lt, if◌then◌else◌, Some, None};

use crate::NetId;
use std::marker::Model;

/// Two nets, the one with the smaller number first. Contracts see it as a `NetPair`.
#[derive(Clone, Copy, Debug, PartialEq, Eq)]
pub struct Pair {
    a: NetId,
    b: NetId,
}

impl Model for Pair {
    ghost use Rattle.switch_net.specs.Pairs.{NetPair, IsPair};

    ghost Value = { NetPair };

    ghost view = { λ p. record { a = p.a; b = p.b } };

    ghost invariant = { λ p. IsPair (record { a = p.a; b = p.b }) };

    ghost inverse = { λ p. record { a = p.a; b = p.b } };
}

impl Pair {
    /// The pair of these nets: `None` exactly where the number of `a` is not below that of `b`.
    pub fn new(a: NetId, b: NetId) -> Option<Pair>
        ensures { result ≡ (if nat_lt a.0 b.0 then Some (record { a = a; b = b }) else None) }
    {
        if a.0 < b.0 {
            Some(Pair::in_order(a, b))
        } else {
            None
        }
    }

    /// The pair of these nets, of which the first has the smaller number.
    pub fn in_order(a: NetId, b: NetId) -> Pair
        requires { a.0 < b.0 }
        ensures { result ≡ record { a = a; b = b } }
    {
        Pair { a, b }
    }

    /// The net with the smaller number.
    pub fn a(&self) -> NetId
        ensures is { result ≡ self.now.a }
        ensures first { self.now.a.0 < self.now.b.0 }
    {
        self.a
    }

    /// The net with the greater number.
    pub fn b(&self) -> NetId
        ensures is { result ≡ self.now.b }
        ensures last { self.now.a.0 < self.now.b.0 }
    {
        self.b
    }
}
