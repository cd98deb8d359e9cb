// The classes of a net.
ghost use Rattle.std.specs.Prelude.{◌≡◌, ◌≤◌, length, map};
ghost use Rattle.periodic_net.specs.Correspondence.{IsClass};
ghost use Rattle.periodic_net.specs.Graph.{IsGraph, IsQuotientVertex};
ghost use Rattle.periodic_net.specs.Limits.{most_arcs, most_vertices, IsSmall};
ghost use Rattle.quotient_graph.specs.ClassNets.{arcs_of, class_graph, IsNetInMemory};
ghost use Rattle.quotient_graph.specs.NetClasses.{AreClasses, AreClassesOf, class_at};

use crate::{ClassArc, ClassGraph, Graph};
use std::marker::Model;
use vecdim::Vect;

/// The classes of a connected stable net, its class graph, and its translations with parts from 0
/// to D0 - 1. Two vertices share a class if a translation moves one over the first onto one over
/// the second; classes are numbered from 1, by their least members. Contracts see the graph, the
/// class of each vertex, the class graph, and the translations.
#[derive(Debug, Drop)]
pub struct Classes<const D: usize> {
    graph: Graph<D>,
    class_of: Vec<u32>,
    net: ClassGraph<D>,
    translations: Vec<Vect<D>>,
}

impl<const D: usize> Model for Classes<D> {
    ghost use Rattle.quotient_graph.specs.NetClasses.{NetClasses, AreClassesOf};

    ghost Value = { NetClasses };

    ghost view = { λ c. record {
      graph = c.graph;
      numbers = c.class_of.items;
      classes = c.net;
      translations = c.translations.items;
    } };

    ghost invariant = { λ c. AreClassesOf c.graph c.class_of.items c.net c.translations.items };
}

impl<const D: usize> Classes<D> {
    /// The classes of the net of `graph`: vertex `u` is in class `class_of[u - 1]`, and the arcs of
    /// class `c` are `arcs[c - 1]`.
    pub fn from_parts(
        graph: Graph<D>,
        class_of: Vec<u32>,
        arcs: Vec<Vec<ClassArc<D>>>,
        translations: Vec<Vect<D>>,
    ) -> Classes<D>
        requires net { IsNetInMemory D (map (λ s. s.items) arcs.items) }
        requires classes { AreClassesOf graph class_of.items
            (class_graph D (map (λ s. s.items) arcs.items)) translations.items }
        ensures graph { result.graph ≡ graph.entry }
        ensures numbers { result.numbers ≡ class_of.items }
        ensures classes { result.classes ≡ class_graph D (map (λ s. s.items) arcs.entry.items) }
        ensures translations { result.translations ≡ translations.entry.items }
    {
        Classes {
            graph,
            class_of,
            net: ClassGraph::from_parts(arcs),
            translations,
        }
    }

    /// What holds of each set of classes in memory. A proof knows it only after a call whose
    /// contract says so: this one, which does nothing.
    pub fn recall(&self)
        ensures classes { AreClasses self.now }
        ensures is_graph { IsGraph self.now.graph }
        ensures small { IsSmall self.now.graph }
    {
        self.graph.recall();
    }

    /// The class graph.
    pub fn net(&self) -> &ClassGraph<D>
        ensures net { result.now ≡ self.now.classes }
        ensures classes { AreClasses self.now }
        ensures is_graph { IsGraph self.now.graph }
        ensures small { IsSmall self.now.graph }
    {
        self.graph.recall();
        &self.net
    }

    /// The number of classes.
    pub fn count(&self) -> u32
        ensures count { result ≡ self.now.classes.count }
        ensures few { result ≤ most_vertices }
        ensures classes { AreClasses self.now }
    {
        self.net().count()
    }

    /// The class of a vertex.
    pub fn class_of(&self, u: u32) -> u32
        requires { IsQuotientVertex self.now.graph u }
        ensures class { result ≡ class_at self.now.numbers u }
        ensures inside { IsClass self.now.classes result }
    {
        self.class_of[u as usize - 1]
    }

    /// The arcs from a class, by their heads and then by their vectors.
    pub fn arcs(&self, c: u32) -> &[ClassArc<D>]
        requires { IsClass self.now.classes c }
        ensures arcs { result.now ≡ arcs_of self.now.classes c }
        ensures classes { AreClasses self.now }
    {
        self.net().arcs(c)
    }

    /// The number of arcs of all classes.
    pub fn all_arcs(&self) -> u32
        ensures count { result ≡ length self.now.classes.arcs }
        ensures few { result ≤ most_arcs }
    {
        self.net.all_arcs()
    }

    /// The translations with parts from 0 to D0 - 1, in rising order; each translation is one of
    /// them plus a vector of multiples of D0.
    pub fn translations(&self) -> &[Vect<D>]
        ensures { result.now ≡ self.now.translations }
    {
        &self.translations
    }
}
