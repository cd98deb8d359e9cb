// Class graphs in memory: a list of arcs for each class.
ghost use Rattle.std.specs.Prelude.{◌≡◌, ◌≤◌, length, map, sum_by};
ghost use Rattle.periodic_net.specs.Correspondence.{IsClass};
ghost use Rattle.periodic_net.specs.Limits.{most_arcs, most_vertices};
ghost use Rattle.quotient_graph.specs.ClassNets.{arcs_of, class_graph, HasStars, IsNetInMemory, IsSmallNet};

use crate::ClassArc;
use std::marker::Model;

/// The class graph of a connected stable net, with vectors in units of 1/D0 or in the coordinates
/// of another basis. Contracts see the class graph.
#[derive(Debug, Drop)]
pub struct ClassGraph<const D: usize> {
    stars: Vec<Vec<ClassArc<D>>>,
}

impl<const D: usize> Model for ClassGraph<D> {
    ghost use Rattle.std.specs.Prelude.{map};
    ghost use Rattle.periodic_net.specs.Classes.{ClassGraph};
    ghost use Rattle.quotient_graph.specs.ClassNets.{class_graph, IsNetInMemory};

    ghost Value = { ClassGraph };

    ghost view = { λ k. class_graph D (map (λ s. s.items) k.stars.items) };

    ghost invariant = { λ k. IsNetInMemory D (map (λ s. s.items) k.stars.items) };
}

// The number of arcs in these lists.
#[tactic(auto, using(std::proofs::lemmas::List::Sums::sum_by_more, std::proofs::lemmas::List::Sums::sum_by_more_le))]
fn arcs_in<const D: usize>(stars: &[Vec<ClassArc<D>>]) -> usize
    requires { sum_by (λ s. length s.items) stars.now ≤ most_arcs }
    ensures { result ≡ sum_by (λ s. length s.items) stars.now }
{
    let mut all = 0;
    for star in stars {
        all += star.len();
    }
    all
}

impl<const D: usize> ClassGraph<D> {
    /// The class graph whose classes have these arcs.
    pub fn from_parts(stars: Vec<Vec<ClassArc<D>>>) -> ClassGraph<D>
        requires { IsNetInMemory D (map (λ s. s.items) stars.items) }
        ensures { result ≡ class_graph D (map (λ s. s.items) stars.entry.items) }
    {
        ClassGraph { stars }
    }

    /// The number of classes.
    pub fn count(&self) -> u32
        ensures count { result ≡ self.now.count }
        ensures few { result ≤ most_vertices }
        ensures dimension { self.now.dimension ≡ D }
        ensures small { IsSmallNet self.now }
        ensures stars { HasStars self.now }
    {
        self.stars.len() as u32
    }

    /// What holds of each class graph in memory. A proof knows it only after a call whose contract
    /// says so: this one, which does nothing.
    pub fn recall(&self)
        ensures dimension { self.now.dimension ≡ D }
        ensures small { IsSmallNet self.now }
        ensures stars { HasStars self.now }
    {
        let _ = &self.stars;
    }

    /// The arcs from a class.
    pub fn arcs(&self, c: u32) -> &[ClassArc<D>]
        requires { IsClass self.now c }
        ensures arcs { result.now ≡ arcs_of self.now c }
        ensures dimension { self.now.dimension ≡ D }
        ensures small { IsSmallNet self.now }
    {
        &self.stars[c as usize - 1]
    }

    /// The number of arcs of all classes.
    pub fn all_arcs(&self) -> u32
        ensures count { result ≡ length self.now.arcs }
        ensures few { result ≤ most_arcs }
        ensures small { IsSmallNet self.now }
    {
        arcs_in(&self.stars) as u32
    }
}
