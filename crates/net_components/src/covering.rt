// The components of a quotient graph, in the order of their least vertices.
ghost use Rattle.std.specs.Prelude.{◌≡◌, ◌≤◌, ◌+◌, ◌++◌, ◌∷◌, [], OnOk, length, All, IfOk, IfErr, true, false};
ghost use Rattle.periodic_net.specs.Graph.{IsQuotientVertex};
ghost use Rattle.net_components.specs.Components.{IsComponent, IsFoundIn, AreComponentsTo};
ghost use Rattle.net_components.specs.Faults.{IsPartFault};

use crate::component::{Component, component_of};
use crate::{NoMemory, PartFault};
use quotient_graph::Graph;
use std::alloc::Global;

// Whether a vertex is in one of these components.
fn is_found_in<const D: usize>(components: &[Component<D>], u: u32) -> bool
    requires low { 1 ≤ u }
    requires high { All (λ c. u ≤ length c.found) components.now }
    ensures yes { result ≡ true → IsFoundIn components.now u }
    ensures no { result ≡ false → ¬ IsFoundIn components.now u }
{
    for component in components {
        if component.has(u) {
            return true;
        }
    }
    false
}

// Puts a component last.
fn push<const D: usize>(
    components: &mut Vec<Component<D>>,
    component: Component<D>,
) -> Result<(), NoMemory>
    ensures { OnOk result (components.new.items ≡ components.old.items ++ component.entry ∷ []) }
{
    components.push(component)?;
    Ok(())
}

// The component of the least vertex that is in none of those before it.
fn next_component<const D: usize>(
    alloc: Global,
    g: &Graph<D>,
    components: &[Component<D>],
    u: u32,
) -> Result<Component<D>, PartFault>
    requires vertex { IsQuotientVertex g.now u }
    requires components { AreComponentsTo g.now components.now u }
    requires new { ¬ IsFoundIn components.now u }
    ensures root { IfOk result (λ c. c.root ≡ u) }
    ensures component { IfOk result (IsComponent g.now) }
    ensures low { IfErr result (IsPartFault g.now) }
{
    g.recall();
    component_of(alloc, g, u)
}

/// All components, if the closed walks of each have full rank.
pub fn components_of<const D: usize>(
    alloc: Global,
    g: &Graph<D>,
) -> Result<Vec<Component<D>>, PartFault>
    ensures components { IfOk result (λ cs.
        AreComponentsTo g.now cs.items (g.now.vertices + 1)) }
    ensures low { IfErr result (IsPartFault g.now) }
{
    let mut components = Vec::new(alloc);
    for u in 1..g.vertices() + 1 {
        if !is_found_in(&components, u) {
            let component = next_component(alloc, g, &components, u)?;
            push(&mut components, component)?;
        }
    }
    Ok(components)
}
