//! The sides of rings that a core is lent, as its turns go over them.

ghost use Rattle.std.specs.Prelude.{◌≡◌, ◌<◌, ℕ, List, length, slice_get, slice_set, Some};
ghost use Rattle.std.specs.Borrow.{sem, Lends};
ghost use Rattle.fl_link.specs.Looks.{Look};
ghost use Rattle.fl_core_run.specs.Sides.{SideRelations, ways};

use fl_link::{PutSide, TakeSide};

/// A core's sides, by the numbers by which the core names them. One at a time is lent.
///
/// Contracts see them as a list of states, `states`. A step of the side that is lent is one of its state, by the relations
/// of `ways`, and changes no other's: so the laws below say. What else is lent with a side, as a seat that all of a
/// core's sides share, is up to the sides.
pub trait CoreSides {
    /// A side, while it is lent.
    type Lent: PutSide + TakeSide;

    // A side as contracts see it, and what is lent with one that stays as it is.
    ghost State: { Type 0 };

    ghost Rest: { Type 0 };

    ghost states: { Self → List State };

    ghost state_of: { Self.Lent → State };

    ghost rest_of: { Self.Lent → Rest };

    // This is lent as the side of this number.
    ghost lends: { Self → ℕ → Self.Lent → Type 0 };

    // All sides, once what was lent as the side of this number came back so.
    ghost returned: { Self → ℕ → Self.Lent → Self };

    // What they do, and what is known of all of them together.
    ghost ways: { SideRelations State };

    /// How many there are.
    fn count(&self) -> usize
        ensures count { result ≡ length (states self.now) };

    /// What is known of all of them together. It does nothing.
    fn shows(&self)
        ensures whole { ways.whole (states self.now) };

    /// The side of this number, lent.
    fn side(&mut self, n: usize) -> &mut Self::Lent
        requires { n < length (states self.old) }
        ensures* returned { sem 𝓛 (Lends Self.row Self.Lent.row self.entry result (returned self.old n)) }
        ensures lent { lends self.old n result.now };

    ghost stands: { (ss : Self) (n : ℕ) (a : Self.Lent) → lends ss n a → slice_get (states ss) n ≡ Some (state_of a) };

    ghost gives_back: { (ss : Self) (n : ℕ) (a b : Self.Lent) → lends ss n a → rest_of a ≡ rest_of b
        → states (returned ss n b) ≡ slice_set (states ss) n (state_of b) };

    ghost puts_are: { (a : Self.Lent) (look : Look) (b : Self.Lent) → Self.Lent.puts a look b
        → ways.puts (state_of a) look (state_of b) × (rest_of a ≡ rest_of b) };

    ghost takes_are: { (a : Self.Lent) (look : Look) (b : Self.Lent) → Self.Lent.takes a look b
        → ways.takes (state_of a) look (state_of b) × (rest_of a ≡ rest_of b) };

    ghost front_is: { (a : Self.Lent) → Self.Lent.front a ≡ ways.front (state_of a) };
}

impl<S: PutSide + TakeSide> CoreSides for Vec<S> {
    type Lent = S;

    ghost use Rattle.std.specs.Prelude.{◌≡◌, slice_get, Some, refl};
    ghost use Rattle.std.specs.Vec.{with_item};

    ghost State = { S };

    ghost Rest = { Unit {0} };

    ghost states = { λ v. v.items };

    ghost state_of = { λ a. a };

    ghost rest_of = { λ a. tt };

    ghost lends = { λ v n a. slice_get v.items n ≡ Some a };

    ghost returned = { λ v n a. with_item v n a };

    ghost ways = { ways S.puts S.takes S.front };

    #[inline(always)]
    fn count(&self) -> usize {
        self.len()
    }

    #[inline(always)]
    fn shows(&self) {}

    #[inline(always)]
    fn side(&mut self, n: usize) -> &mut S {
        &mut self[n]
    }

    ghost stands = { λ v n a lent. lent };

    ghost gives_back = { λ v n a b lent same. refl };

    ghost puts_are = { λ a look b put. (put, refl) };

    ghost takes_are = { λ a look b took. (took, refl) };

    ghost front_is = { λ a. refl };
}
