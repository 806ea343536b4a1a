// "Move on" for programs in C and Rust (c/pinduguil.h), on a record of five numbers.
#![tactic(auto)]

ghost use Rattle.std.specs.Prelude.{◌≡◌, cond, Some, None};
ghost use Rattle.c_moving.specs.Numbers.{is_record, packet_of, numbers_of, MovesInNumbers};

use headings::{last_number, last_of};
use mesh::{Network, Packet, Place};
use moving::moved_on;
use numbers::{NO_REQUEST, moved_code, place_of};

// Five numbers, with a last hop in the third place, are a record.
#[tactic(auto, unfolding(crate::specs::Numbers::is_record, crate::specs::Numbers::packet_of))]
fn read_packet(xs: &[u32]) -> Option<Packet>
    ensures { result ≡ cond (is_record xs.now) (Some (packet_of xs.now)) None }
{
    match *xs {
        [row, column, last, to_row, to_column] if last < 5 => Some(Packet {
            place: place_of(row, column),
            last: last_of(last),
            destination: place_of(to_row, to_column),
        }),
        _ => None,
    }
}

// The five numbers of a record.
#[tactic(auto, unfolding(crate::specs::Numbers::numbers_of))]
fn numbers_of(p: Packet) -> [u32; 5]
    ensures { result ≡ numbers_of p }
{
    let Place { row, column } = p.place;
    let to = p.destination;
    [row.0, column.0, last_number(p.last), to.row.0, to.column.0]
}

// Move on, for a record of five numbers: row, column, last hop, destination row, destination column.
#[tactic(auto, unfolding(mesh::specs::Numbers::network_read, crate::specs::Numbers::is_record, crate::specs::Numbers::numbers_of))]
pub fn pinduguil_move_on(
    network: u32,
    columns: u32,
    rows: u32,
    map: &[u8],
    packet: &mut [u32],
) -> u32
    ensures { MovesInNumbers network columns rows map.now packet.old result packet.new }
{
    let Ok(network) = Network::try_from(network) else {
        return NO_REQUEST;
    };
    let Some(p) = read_packet(packet) else {
        return NO_REQUEST;
    };
    let stepped = moved_on(network, columns, rows, map, p);
    packet.copy_from_slice(&numbers_of(stepped.packet));
    moved_code(stepped.moved)
}
