//! The route of a circuit.

ghost use Rattle.std.specs.Prelude.{◌≤◌};

/// The cores of a circuit's route, the client's first. No circuit goes over more than 16; of a longer route the
/// first 17 are kept, by which it is refused.
#[derive(Clone, Copy)]
pub struct Route {
    cores: [u32; 17],
    count: usize,
    pub ghost few: { count ≤ 17 },
}

impl Route {
    ghost use Rattle.std.specs.Prelude.{◌≡◌, ◌∷◌, ◌++◌, []};
    ghost use Rattle.fl_model.specs.Events.{asked_route};
    ghost use Rattle.fl_model.specs.Views.{cores_of};

    /// The route of one core.
    pub fn new(first: u32) -> Route
        ensures cores { cores_of result ≡ first ∷ [] }
    {
        let mut cores = [0; 17];
        cores[0] = first;
        Route { cores, count: 1 }
    }

    /// One core more, if it is kept.
    #[tactic(auto, using(crate::proofs::Routes::full))]
    pub fn push(&mut self, core: u32)
        ensures cores { cores_of self.new ≡ asked_route (cores_of self.old ++ core ∷ []) }
    {
        if self.count < 17 {
            self.cores[self.count] = core;
            self.count += 1;
        }
    }

    /// Its cores, in order.
    pub fn cores(&self) -> &[u32]
        ensures cores { result.now ≡ cores_of self.now }
    {
        &self.cores[..self.count]
    }
}
