// Judges an entry at its end: computes what its rows say of its graph anew.
ghost use Rattle.std.specs.Prelude.{◌≡◌, ◌↔◌, ◌⊎◌, ◌≤◌, ℕ, true, IfOk, IfErr, OnOk, length};
ghost use Rattle.quotient_graph.specs.AnyGraphs.{graph_view};
ghost use Rattle.coordination.specs.Sequences.{AreSequencesOf};
ghost use Rattle.least_key.specs.AnyNets.{net_view};
ghost use Rattle.least_key.specs.KeyedNets.{HasKinds, IsKeyed};
ghost use Rattle.quotient_graph.specs.EdgeLists.{AreEdgesOfGraph};
ghost use Rattle.archive_text.specs.Entries.{entry_view};
ghost use Rattle.net_archive.specs.Judging.{AreRefusedShells, HasKey, IsDifferingClass, IsEntryOfForm, IsJudged, IsOtherKey, IsRefusedAt, graph_of_form, graph_of_keyed};
ghost use Rattle.periodic_net.specs.Limits.{most_vertices};
ghost use Rattle.line_text.specs.Lines.{last_line};

use crate::ArchiveFault;
use archive_text::{Entry, Form, KeyedGraph, Version};
use coordination::Sequences;
use least_key::{KindedNet, Net, Refusal, identify_with_kinds};
use lists::Items;
use quotient_graph::{AnyGraph, Key, from_edges};
use std::alloc::{AllocError as NoMemory, Global};

fn same_key(a: &Key, b: &Key) -> bool
    ensures { result ≡ true ↔ a.now ≡ b.now }
{
    a.numbers() == b.numbers()
}

// The net of a graph, and kinds of its classes, or why the entry that begins on this line is
// refused.
fn identify_at(alloc: Global, line: u32, graph: &AnyGraph) -> Result<KindedNet, ArchiveFault>
    ensures net { IfOk result (λ n. (net_view n.net).placed.graph ≡ graph_view graph.now) }
    ensures keyed { IfOk result (λ n. IsKeyed (net_view n.net)) }
    ensures kinds { IfOk result (λ n. HasKinds (net_view n.net) n.kinds) }
    ensures fault { IfErr result (IsRefusedAt line (graph_view graph.now)) }
{
    match identify_with_kinds(alloc, graph.copy()?) {
        Ok(net) => Ok(net),
        Err(Refusal::NoMemory) => Err(ArchiveFault::NoMemory),
        Err(refusal) => Err(ArchiveFault::EntryRefused(line, refusal)),
    }
}

fn same_sizes(a: &[u32], b: &[u32]) -> bool
    ensures { result ≡ true ↔ a.now ≡ b.now }
{
    a == b
}

// The class after so many others whose shells differ, if one of them does.
fn differing_class(kept: &Sequences, computed: &Sequences) -> Option<usize>
    requires { length kept.now ≡ length computed.now }
    ensures { IsDifferingClass kept.now computed.now result }
{
    for before in 0..kept.len() {
        if !same_sizes(kept.at(before), computed.at(before)) {
            return Some(before);
        }
    }
    None
}

// That the shells that are kept are those of the net.
fn check_shells(
    alloc: Global,
    key_line: u32,
    kept: &Sequences,
    computed: &Sequences,
) -> Result<(), ArchiveFault>
    requires line { key_line ≤ last_line }
    requires kept { length kept.now ≤ most_vertices }
    requires computed { length computed.now ≤ most_vertices }
    ensures same { OnOk result (kept.now ≡ computed.now) }
    ensures fault { IfErr result (AreRefusedShells key_line kept.now computed.now) }
{
    if kept.len() != computed.len() {
        return Err(ArchiveFault::CountDiffers {
            line: key_line + 1,
            kept: kept.len() as u32,
            computed: computed.len() as u32,
        });
    }
    let Some(before) = differing_class(kept, computed) else {
        return Ok(());
    };
    Err(ArchiveFault::ShellsDiffer {
        line: key_line + 2 + before as u32,
        class: before as u32 + 1,
        kept: Items::from_slice(alloc, kept.at(before))?,
        computed: Items::from_slice(alloc, computed.at(before))?,
    })
}

// That the shells of the classes are kept, if the version has them.
fn check_version(
    alloc: Global,
    version: Version,
    key_line: u32,
    kept: &Sequences,
    computed: &Sequences,
) -> Result<(), ArchiveFault>
    requires line { key_line ≤ last_line }
    requires kept { length kept.now ≤ most_vertices }
    requires computed { length computed.now ≤ most_vertices }
    ensures same { OnOk result (version ≡ Version.Two → kept.now ≡ computed.now) }
    ensures fault { IfErr result (λ fault. (fault ≡ ArchiveFault.NoMemory) ⊎
        ((version ≡ Version.Two) × AreRefusedShells key_line kept.now computed.now fault)) }
{
    match version {
        Version::One => Ok(()),
        Version::Two => check_shells(alloc, key_line, kept, computed),
    }
}

// That the key that is kept is that of the net.
fn check_key(keyed: &KeyedGraph, net: &Net) -> Result<(), ArchiveFault>
    ensures same { OnOk result (keyed.now.key ≡ (net_view net.now).key) }
    ensures fault { IfErr result (IsOtherKey keyed.now (net_view net.now).key) }
{
    if same_key(&keyed.key, net.key()) {
        return Ok(());
    }
    let kept = keyed.key.copy()?;
    let computed = net.key().copy()?;
    Err(ArchiveFault::KeyDiffers {
        line: keyed.key_line,
        kept,
        computed,
    })
}

// The shells of the classes of an entry's net, if its key and they are kept.
fn check_net(
    alloc: Global,
    version: Version,
    form: &Form,
    found: &KindedNet,
) -> Result<Sequences, ArchiveFault>
    requires graph { (net_view found.now.net).placed.graph ≡ graph_of_form form.now }
    requires keyed { IsKeyed (net_view found.now.net) }
    requires kinds { HasKinds (net_view found.now.net) found.now.kinds }
    requires line { form.now.keyed.key_line ≤ last_line }
    requires few { length form.now.shells ≤ most_vertices }
    ensures key { OnOk result (HasKey form.now) }
    ensures shells { IfOk result (AreSequencesOf (graph_of_form form.now)) }
    ensures kept { IfOk result (λ lists. version ≡ Version.Two → form.now.shells ≡ lists) }
    ensures fault { (line : ℕ) → IfErr result (IsJudged version line form.now) }
{
    check_key(&form.keyed, &found.net)?;
    let shells = found.net.sequences(alloc, &found.kinds)?;
    let key_line = form.keyed.key_line;
    check_version(alloc, version, key_line, &form.shells, &shells)?;
    Ok(shells)
}

// The shells of the classes of an entry's graph, if its key and they are kept. The entry begins
// on this line.
fn check_form(
    alloc: Global,
    line: u32,
    version: Version,
    graph: &AnyGraph,
    form: &Form,
) -> Result<Sequences, ArchiveFault>
    requires graph { graph_view graph.now ≡ graph_of_form form.now }
    requires line { form.now.keyed.key_line ≤ last_line }
    requires few { length form.now.shells ≤ most_vertices }
    ensures key { OnOk result (HasKey form.now) }
    ensures shells { IfOk result (AreSequencesOf (graph_of_form form.now)) }
    ensures kept { IfOk result (λ lists. version ≡ Version.Two → form.now.shells ≡ lists) }
    ensures fault { IfErr result (IsJudged version line form.now) }
{
    match identify_at(alloc, line, graph) {
        Ok(net) => {
            let shells = check_net(alloc, version, form, &net);
            drop(net);
            shells
        }
        Err(fault) => Err(fault),
    }
}

// The graph that the rows of an entry say.
fn graph_of(alloc: Global, keyed: &KeyedGraph) -> Result<AnyGraph, NoMemory>
    requires { AreEdgesOfGraph keyed.now.size.dim keyed.now.size.vertices keyed.now.edges.items }
    ensures { IfOk result (λ g. graph_view g ≡ graph_of_keyed keyed.now) }
{
    from_edges(alloc, keyed.size.dim, keyed.size.vertices, &keyed.edges)
}

/// The entry of this name and form, whose first row stands on this line, or the first fault that is
/// told at its end.
pub fn judge(
    alloc: Global,
    name: &[u8],
    line: u32,
    version: Version,
    form: Form,
) -> Result<Entry, ArchiveFault>
    requires edges { AreEdgesOfGraph form.keyed.size.dim form.keyed.size.vertices
        form.keyed.edges.items }
    requires line { form.keyed.key_line ≤ last_line }
    requires few { length form.shells ≤ most_vertices }
    ensures entry { IfOk result (λ e. IsEntryOfForm version name.now form (entry_view e)) }
    ensures fault { IfErr result (IsJudged version line form) }
{
    let name = Vec::from_slice(alloc, name)?;
    let graph = graph_of(alloc, &form.keyed)?;
    let shells = check_form(alloc, line, version, &graph, &form)?;
    Ok(Entry {
        name,
        graph,
        key: form.keyed.key,
        shells,
    })
}
