// The operations in numbers, exported under the names of c/pinduguil.h. Each function does what its namesake in a library c_* does, and promises
// the same.
#![tactic(auto)]

ghost use Rattle.mesh.specs.Mesh.{place};
ghost use Rattle.c_batch.specs.Numbers.{RoutesBatchInNumbers};
ghost use Rattle.c_boxing.specs.Numbers.{BoxesInNumbers};
ghost use Rattle.c_drawing.specs.Numbers.{DrawsInNumbers};
ghost use Rattle.c_judging.specs.Numbers.{JudgesInNumbers};
ghost use Rattle.c_legs.specs.Numbers.{LettersToLegsInNumbers, LegsToLettersInNumbers};
ghost use Rattle.c_marking.specs.Numbers.{MarksInNumbers};
ghost use Rattle.c_moving.specs.Numbers.{MovesInNumbers};
ghost use Rattle.c_picking.specs.Numbers.{PicksInNumbers};
ghost use Rattle.c_routing.specs.Numbers.{RoutesInNumbers};

#[unsafe(no_mangle)]
pub extern "C" fn pinduguil_mark(
    columns: u32,
    rows: u32,
    map: &[u8],
    out: &mut [u8],
    rounds: &mut [u64],
) -> u32
    ensures { MarksInNumbers columns rows map.now out.old rounds.old result out.new rounds.new }
{
    c_marking::pinduguil_mark(columns, rows, map, out, rounds)
}

#[unsafe(no_mangle)]
pub extern "C" fn pinduguil_box(columns: u32, rows: u32, map: &[u8], list: &mut [u32]) -> u32
    ensures { BoxesInNumbers columns rows map.now list.old result list.new }
{
    c_boxing::pinduguil_box(columns, rows, map, list)
}

#[unsafe(no_mangle)]
pub extern "C" fn pinduguil_route(
    network: u32,
    columns: u32,
    rows: u32,
    map: &[u8],
    source_row: u32,
    source_column: u32,
    row: u32,
    column: u32,
    out: &mut [u8],
) -> u32
    ensures { RoutesInNumbers network columns rows map.now (place source_row source_column) (place row column) out.old result out.new }
{
    c_routing::pinduguil_route(
        network,
        columns,
        rows,
        map,
        source_row,
        source_column,
        row,
        column,
        out,
    )
}

#[unsafe(no_mangle)]
pub extern "C" fn pinduguil_pick(
    columns: u32,
    rows: u32,
    map: &[u8],
    source_row: u32,
    source_column: u32,
    row: u32,
    column: u32,
    first: &mut [u8],
    second: &mut [u8],
    letters: &mut [u64],
    refusal: &mut [u64],
) -> u32
    ensures { PicksInNumbers columns rows map.now (place source_row source_column) (place row column) first.old second.old letters.old refusal.old result first.new second.new letters.new refusal.new }
{
    c_picking::pinduguil_pick(
        columns,
        rows,
        map,
        source_row,
        source_column,
        row,
        column,
        first,
        second,
        letters,
        refusal,
    )
}

#[unsafe(no_mangle)]
pub extern "C" fn pinduguil_route_batch(
    network: u32,
    columns: u32,
    rows: u32,
    map: &[u8],
    sends: &[u32],
    answers: &mut [u32],
    out: &mut [u8],
    letters: &mut [u64],
) -> u32
    ensures { RoutesBatchInNumbers network columns rows map.now sends.now answers.old out.old letters.old result answers.new out.new letters.new }
{
    c_batch::pinduguil_route_batch(network, columns, rows, map, sends, answers, out, letters)
}

#[unsafe(no_mangle)]
pub extern "C" fn pinduguil_judge(
    network: u32,
    columns: u32,
    rows: u32,
    map: &[u8],
    source_row: u32,
    source_column: u32,
    row: u32,
    column: u32,
    letters: &[u8],
    index: &mut [u64],
) -> u32
    ensures { JudgesInNumbers network columns rows map.now (place source_row source_column) (place row column) letters.now index.old result index.new }
{
    c_judging::pinduguil_judge(
        network,
        columns,
        rows,
        map,
        source_row,
        source_column,
        row,
        column,
        letters,
        index,
    )
}

// The packet's record is five numbers: row, column, last hop, destination row, destination column.
#[unsafe(no_mangle)]
pub extern "C" fn pinduguil_move_on(
    network: u32,
    columns: u32,
    rows: u32,
    map: &[u8],
    packet: &mut [u32],
) -> u32
    ensures { MovesInNumbers network columns rows map.now packet.old result packet.new }
{
    c_moving::pinduguil_move_on(network, columns, rows, map, packet)
}

#[unsafe(no_mangle)]
pub extern "C" fn pinduguil_letters_to_legs(
    letters: &[u8],
    out: &mut [u8],
    written: &mut [u64],
) -> u32
    ensures { LettersToLegsInNumbers letters.now out.old written.old result out.new written.new }
{
    c_legs::pinduguil_letters_to_legs(letters, out, written)
}

#[unsafe(no_mangle)]
pub extern "C" fn pinduguil_legs_to_letters(file: &[u8], out: &mut [u8], written: &mut [u64]) -> u32
    ensures { LegsToLettersInNumbers file.now out.old written.old result out.new written.new }
{
    c_legs::pinduguil_legs_to_letters(file, out, written)
}

#[unsafe(no_mangle)]
pub extern "C" fn pinduguil_draw(
    columns: u32,
    rows: u32,
    seed: u32,
    draws: u32,
    out: &mut [u8],
) -> u32
    ensures { DrawsInNumbers columns rows seed draws out.old result out.new }
{
    c_drawing::pinduguil_draw(columns, rows, seed, draws, out)
}
