// Letters to legs, and legs to letters. The output of a file is 9 where no byte is written, that of letters has dots where no letter is.
use std::io;
use test_prints::{Bytes, Letters};
use theory_legs::LegRefusal;
use to_legs::letters_to_legs;
use to_letters::legs_to_letters;

fn print_converted(rt: &impl Print, answer: Result<usize, LegRefusal>) -> io::Result<()> {
    match answer {
        Ok(n) => print!(rt; ": {n}"),
        Err(why) => print!(rt; ": no {}", u32::from(why)),
    }
}

fn try_letters(rt: &impl Print, letters: &[u8]) -> io::Result<()> {
    let mut file = [9u8; 8];
    let answer = letters_to_legs(letters, &mut file);
    print!(rt; "letters to legs, {}", Letters(letters))?;
    print_converted(rt, answer)?;
    println!(rt; ",{}", Bytes(&file))
}

fn try_file(rt: &impl Print, file: &[u8]) -> io::Result<()> {
    let mut letters = [b'.'; 14];
    let answer = legs_to_letters(file, &mut letters);
    print!(rt; "legs to letters,{}", Bytes(file))?;
    print_converted(rt, answer)?;
    println!(rt; " {}", Letters(&letters))
}

fn try_all_letters(rt: &impl Print) -> io::Result<()> {
    try_letters(rt, b"WNWWNNNNEEE")?;
    try_letters(rt, b"")?;
    try_letters(rt, b"EW")?;
    try_letters(rt, b"EEEEEEEEEEEEEEEEEEEEEEEEEEEEEEEEE")?;
    try_letters(rt, b"ENENENEN")?;
    try_letters(rt, b"ENENENENx")
}

pub fn try_legs(rt: &impl Print) -> io::Result<()> {
    try_all_letters(rt)?;
    try_file(rt, &[5, 2, 1, 6, 13, 8])?;
    try_file(rt, &[0])?;
    try_file(rt, &[2, 0, 2])?;
    try_file(rt, &[1, 56])?;
    try_file(rt, &[])?;
    try_file(rt, &[2, 0])?;
    try_file(rt, &[1, 128, 0])?;
    try_file(rt, &[129, 128, 128])?;
    try_file(rt, &[255, 255, 4])?;
    try_file(rt, &[2, 1, 5, 0])?;
    try_file(rt, &[1, 1, 5])
}
