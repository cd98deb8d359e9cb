// What a command reports on a block.
ghost use Rattle.std.specs.Prelude.{◌≡◌, ◌≢◌, [], IfOk, List};
ghost use Rattle.coordination.specs.Sequences.{AreSequencesOf};
ghost use Rattle.least_key.specs.AnyNets.{net_view};
ghost use Rattle.least_key.specs.KeyedNets.{HasKinds};
ghost use Rattle.net_archive.specs.Archives.{IsArchive};
ghost use Rattle.archive_text.specs.Entries.{EntryView};
ghost use Rattle.archive_text.specs.Lookups.{names_with};
ghost use Rattle.cgd_read.specs.Graphs.{IsReadGraph};
ghost use Rattle.cgd_read.specs.Views.{Net as ReadNet, body_view, raw_view};
ghost use Rattle.cgd_read.specs.Blocks.{IsReadBody};
ghost use Rattle.net_report.specs.KindsTold.{AreKindsTold};
ghost use Rattle.block_answers.specs.Outcomes.{size_of, IsAcceptedAs, IsBodyOf, IsKeyedAs};

use crate::tell_components;
use cgd_read::{Block, Body, Names, RawGraph};
use coordination::Sequences;
use least_key::{KindedNet, Kinds, Net, Refusal, check_any, identify_with_kinds, place_any};
use net_archive::Archive;
use net_report::{Command, Judged, NoMemory, OutcomeBody, Size};
use quotient_graph::from_raw;
use std::alloc::Global;

fn size_of(raw: &RawGraph<'_>) -> Size
    requires { IsReadGraph (raw_view raw.now) }
    ensures { result ≡ size_of (raw_view raw.now) }
{
    Size {
        dim: raw.dim,
        vertices: raw.names.len() as u32,
        edges: raw.edges.len() as u32,
        repeats: raw.repeats,
    }
}

// The refusal with the vertex names, if it is one.
fn refused_body<'a>(raw: &RawGraph<'a>, refusal: Refusal) -> Result<OutcomeBody<'a>, NoMemory>
    requires { IsReadGraph (raw_view raw.now) }
    ensures told { IfOk result (λ body.
        body ≡ OutcomeBody.Refused (size_of (raw_view raw.now)) raw.now.names refusal) }
    ensures refused { IfOk result (λ body. refusal ≢ Refusal.NoMemory) }
{
    OutcomeBody::refused(size_of(raw), raw.names.copy()?, refusal)
}

fn check_net<'a>(alloc: Global, raw: &RawGraph<'a>) -> Result<OutcomeBody<'a>, NoMemory>
    requires { IsReadGraph (raw_view raw.now) }
    ensures { IfOk result (λ body. (entries : List EntryView) →
        IsBodyOf entries Command.Check (ReadNet (raw_view raw.now)) body) }
{
    let graph = from_raw(alloc, raw)?;
    match check_any(alloc, graph) {
        Ok(()) => Ok(OutcomeBody::Checked(size_of(raw))),
        Err(refusal) => refused_body(raw, refusal),
    }
}

fn place_net<'a>(alloc: Global, raw: &RawGraph<'a>) -> Result<OutcomeBody<'a>, NoMemory>
    requires { IsReadGraph (raw_view raw.now) }
    ensures { IfOk result (λ body. (entries : List EntryView) →
        IsBodyOf entries Command.Place (ReadNet (raw_view raw.now)) body) }
{
    let graph = from_raw(alloc, raw)?;
    match place_any(alloc, graph) {
        Ok(placed) => Ok(OutcomeBody::Located(size_of(raw), raw.names.copy()?, placed)),
        Err(refusal) => refused_body(raw, refusal),
    }
}

// What `key` reports on a net, and kinds of its classes.
fn key_net<'a>(alloc: Global, raw: &RawGraph<'a>) -> Result<(OutcomeBody<'a>, Kinds), NoMemory>
    requires { IsReadGraph (raw_view raw.now) }
    ensures told { IfOk result (λ keyed. (entries : List EntryView) →
        IsBodyOf entries Command.Key (ReadNet (raw_view raw.now)) keyed.0) }
    ensures kinds { IfOk result (λ keyed. AreKindsTold keyed.0 keyed.1) }
{
    let graph = from_raw(alloc, raw)?;
    match identify_with_kinds(alloc, graph) {
        Ok(KindedNet { net, kinds }) => Ok((OutcomeBody::Keyed(size_of(raw), net), kinds)),
        Err(refusal) => {
            let body = refused_body(raw, refusal)?;
            Ok((body, Kinds::new(alloc)))
        }
    }
}

// The names that an archive has for a net with this key.
fn names_for<'a>(alloc: Global, archive: &'a Archive, net: &Net) -> Result<Names<'a>, NoMemory>
    ensures names { IfOk result (λ names.
        names ≡ names_with (net_view net.now).key archive.now.entries) }
    ensures archive { IsArchive archive.now }
{
    let mut names = Names::new(alloc);
    let mut matches = archive.lookup(net.key());
    while let Some(name) = matches.next() {
        names.push(name)?;
    }
    Ok(names)
}

// The names of the vertices, the coordination sequences, and the names that an archive has.
fn lists_of<'a>(
    alloc: Global,
    archive: &'a Archive,
    raw: &RawGraph<'a>,
    found: &KindedNet,
) -> Result<(Names<'a>, Sequences, Names<'a>), NoMemory>
    requires { HasKinds (net_view found.now.net) found.now.kinds }
    ensures vertices { IfOk result (λ lists. lists.0 ≡ raw.now.names) }
    ensures shells { IfOk result (λ lists.
        AreSequencesOf (net_view found.now.net).placed.graph lists.1) }
    ensures names { IfOk result (λ lists.
        lists.2 ≡ names_with (net_view found.now.net).key archive.now.entries) }
    ensures archive { IsArchive archive.now }
{
    let names = names_for(alloc, archive, &found.net)?;
    let shells = found.net.sequences(alloc, &found.kinds)?;
    let vertices = raw.names.copy()?;
    Ok((vertices, shells, names))
}

// What is reported of a net with these lists.
fn with_lists<'a>(
    raw: &RawGraph<'a>,
    net: Net,
    lists: (Names<'a>, Sequences, Names<'a>),
) -> OutcomeBody<'a>
    requires { IsReadGraph (raw_view raw.now) }
    ensures { result ≡ OutcomeBody.Identified (size_of (raw_view raw.now)) lists.entry.0 net
        lists.entry.1 lists.entry.2 }
{
    let (vertices, shells, names) = lists;
    OutcomeBody::Identified(size_of(raw), vertices, net, shells, names)
}

// What is reported of a net that has a key.
fn identified_body<'a>(
    alloc: Global,
    archive: &'a Archive,
    raw: &RawGraph<'a>,
    found: KindedNet,
) -> Result<OutcomeBody<'a>, NoMemory>
    requires read { IsReadGraph (raw_view raw.now) }
    requires keyed { IsKeyedAs (raw_view raw.now) (size_of (raw_view raw.now)) found.net }
    requires kinds { HasKinds (net_view found.net) found.kinds }
    ensures { IfOk result (IsBodyOf archive.now.entries Command.Identify
        (ReadNet (raw_view raw.now))) }
{
    match lists_of(alloc, archive, raw, &found) {
        Ok(lists) => Ok(with_lists(raw, found.net, lists)),
        Err(fault) => {
            drop(found);
            Err(fault)
        }
    }
}

fn identify_net<'a>(
    alloc: Global,
    archive: &'a Archive,
    raw: &RawGraph<'a>,
) -> Result<OutcomeBody<'a>, NoMemory>
    requires { IsReadGraph (raw_view raw.now) }
    ensures { IfOk result (IsBodyOf archive.now.entries Command.Identify
        (ReadNet (raw_view raw.now))) }
{
    let graph = from_raw(alloc, raw)?;
    match identify_with_kinds(alloc, graph) {
        Ok(found) => identified_body(alloc, archive, raw, found),
        Err(refusal) => refused_body(raw, refusal),
    }
}

// What is reported of the components of a net, and whether it is accepted.
fn components_net<'a>(
    alloc: Global,
    raw: &RawGraph<'a>,
) -> Result<Judged<OutcomeBody<'a>>, NoMemory>
    requires { IsReadGraph (raw_view raw.now) }
    ensures told { IfOk result (λ judged. (entries : List EntryView) →
        IsBodyOf entries Command.Components (ReadNet (raw_view raw.now)) judged.told) }
    ensures accepted { IfOk result (λ judged.
        IsAcceptedAs Command.Components (ReadNet (raw_view raw.now)) judged.told judged.accepted) }
{
    let graph = from_raw(alloc, raw)?;
    let lines = tell_components(alloc, &raw.names, &graph)?;
    Ok(Judged {
        told: OutcomeBody::Lines(size_of(raw), lines.told),
        accepted: lines.accepted,
    })
}

/// What a command reports on a block, beside an archive, and whether the block is accepted.
pub fn body_of<'a>(
    alloc: Global,
    command: Command,
    archive: &'a Archive,
    block: &Block<'a>,
) -> Result<Judged<OutcomeBody<'a>>, NoMemory>
    requires { IsReadBody block.now.body }
    ensures told { IfOk result (λ judged.
        IsBodyOf archive.now.entries command (body_view block.now.body) judged.told) }
    ensures accepted { IfOk result (λ judged.
        IsAcceptedAs command (body_view block.now.body) judged.told judged.accepted) }
{
    match &block.body {
        Body::Graph(raw) => match command {
            Command::Check => Ok(check_net(alloc, raw)?.judged()),
            Command::Place => Ok(place_net(alloc, raw)?.judged()),
            Command::Key => {
                let (body, _) = key_net(alloc, raw)?;
                Ok(body.judged())
            }
            Command::Identify => Ok(identify_net(alloc, archive, raw)?.judged()),
            Command::Components => components_net(alloc, raw),
        },
        Body::Unsupported(token) => Ok(OutcomeBody::Unsupported(token).judged()),
        Body::Malformed(fault) => Ok(OutcomeBody::Malformed(*fault).judged()),
    }
}

/// What `key` reports on a block, and kinds of the classes of its net, if it has one.
pub fn keyed_body_of<'a>(
    alloc: Global,
    block: &Block<'a>,
) -> Result<(OutcomeBody<'a>, Kinds), NoMemory>
    requires { IsReadBody block.now.body }
    ensures told { IfOk result (λ keyed.
        IsBodyOf [] Command.Key (body_view block.now.body) keyed.0) }
    ensures kinds { IfOk result (λ keyed. AreKindsTold keyed.0 keyed.1) }
{
    match &block.body {
        Body::Graph(raw) => key_net(alloc, raw),
        Body::Unsupported(token) => Ok((OutcomeBody::Unsupported(token), Kinds::new(alloc))),
        Body::Malformed(fault) => Ok((OutcomeBody::Malformed(*fault), Kinds::new(alloc))),
    }
}
