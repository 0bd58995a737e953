//! The terminals of transistors.

ghost use Rattle.std.specs.Prelude.{◌≡◌, ◌<◌, ◌||◌, ◌==◌, ℕ, Bool, IfOk, Some, length};
ghost use Rattle.std.specs.List.{All, position};
ghost use Rattle.device_extract.specs.Contacts.{AreEnds, AreEndsOf, IsPair, is_bare, is_crowded};

use std::alloc::{AllocError, Global};
use switch_net::NetId;

/// The nets of a transistor's terminals: none, one, two with the smaller first, or more.
#[derive(Clone, Copy)]
pub(crate) enum Ends {
    Bare,
    One(NetId),
    Two(NetId, NetId),
    Crowded,
}

impl Ends {
    /// The terminals with one more.
    fn with(self, net: NetId) -> Ends
        ensures { (has : ℕ → Bool) → AreEnds has self → AreEnds (λ n. has n || (net.0 == n)) result }
    {
        match self {
            Ends::Bare => Ends::One(net),
            Ends::One(a) if a == net => self,
            Ends::One(a) if a.0 < net.0 => Ends::Two(a, net),
            Ends::One(a) => Ends::Two(net, a),
            Ends::Two(a, b) => {
                if is_either(net, a, b) {
                    self
                } else {
                    Ends::Crowded
                }
            }
            Ends::Crowded => self,
        }
    }

    /// Both terminals: the smaller net first, or one net alone. `None` where there is none, or where there are more.
    pub(crate) fn pair(self) -> Option<(NetId, NetId)>
        ensures { (a b : NetId) → IsPair self a b → result ≡ Some (a, b) }
    {
        match self {
            Ends::One(a) => Some((a, a)),
            Ends::Two(a, b) => Some((a, b)),
            Ends::Bare | Ends::Crowded => None,
        }
    }

    /// Whether there is no terminal.
    fn is_bare(&self) -> bool
        ensures { result ≡ is_bare self.now }
    {
        match self {
            Ends::Bare => true,
            _ => false,
        }
    }

    /// Whether there are more than two terminals.
    fn is_crowded(&self) -> bool
        ensures { result ≡ is_crowded self.now }
    {
        match self {
            Ends::Crowded => true,
            _ => false,
        }
    }
}

/// Whether the net is one of the two.
fn is_either(net: NetId, a: NetId, b: NetId) -> bool
    ensures { result ≡ ((a.0 == net.0) || (b.0 == net.0)) }
{
    a == net || b == net
}

/// The terminals of each transistor, from pairs of a transistor and a terminal of it.
pub(crate) fn ends_of(
    alloc: Global,
    count: usize,
    contacts: &[(usize, NetId)],
) -> Result<Vec<Ends>, AllocError>
    requires { All (λ c. c.0 < count) contacts.now }
    ensures { IfOk result (λ v. AreEndsOf contacts.now count v.items) }
{
    let mut ends = Vec::from_elem(alloc, Ends::Bare, count)?;
    for (fet, net) in contacts {
        ends[*fet] = ends[*fet].with(*net);
    }
    Ok(ends)
}

/// The first transistor with no terminal.
pub(crate) fn first_bare(ends: &[Ends]) -> Option<usize>
    ensures { result ≡ position is_bare ends.now }
{
    ends.iter().position(|ends| ends.is_bare())
}

/// The first transistor with more than two terminals.
pub(crate) fn first_crowded(ends: &[Ends]) -> Option<usize>
    ensures { result ≡ position is_crowded ends.now }
{
    ends.iter().position(|ends| ends.is_crowded())
}
