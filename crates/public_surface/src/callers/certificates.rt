// Maps between nets with equal keys, and texts of maps.
ghost use Rattle.std.specs.Prelude.{◌+◌, ◌<◌, ◌^◌, ◌≤◌, length};
ghost use Rattle.net_certificate.specs.Texts.{most_bytes};

use least_key::Net;
use map_check::PeriodicMap;
use net_certificate::{CheckedMaps, MapAnswer, MapsFault, check_maps, map_between, maps_text};
use quotient_graph::NoMemory;
use std::alloc::Global;

pub fn standard_map(alloc: Global, a: &Net, b: &Net, room: u64) -> Result<MapAnswer, NoMemory> {
    map_between(alloc, a, b, room)
}

pub fn found_map(answer: MapAnswer) -> Option<PeriodicMap> {
    match answer {
        MapAnswer::Found(map) => Some(map),
        MapAnswer::Different => None,
        MapAnswer::LongMap { entries: _ } => None,
        MapAnswer::WideMap { value: _ } => None,
    }
}

pub fn text_of(alloc: Global, nets: &[Net]) -> Result<Vec<u8>, NoMemory>
    requires { length nets.now + 1 < 2 ^ 32 }
{
    maps_text(alloc, nets)
}

pub fn checked(alloc: Global, text: &[u8]) -> Result<CheckedMaps, MapsFault>
    requires { length text.now ≤ most_bytes }
{
    check_maps(alloc, text)
}

pub fn checked_from(text: Vec<u8>, refused: u32) -> CheckedMaps {
    CheckedMaps { text, refused }
}

pub fn bad_line(fault: MapsFault) -> Option<u32> {
    match fault {
        MapsFault::Bad { line } => Some(line),
        MapsFault::NoMemory => None,
    }
}
