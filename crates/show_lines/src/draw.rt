// Samples drawn, at most 356: from a picture with a letter for each. A sample is the byte that the call is handed, which need be no kind of line.
use lines::SoFar;

// The beginning.
pub(crate) const BEGINNING: SoFar = SoFar {
    bits: 0,
    run: 0,
    count: 0,
    line: 0,
    fault: 0,
};

fn sample(letter: u8) -> u8 {
    match letter {
        b'.' => 0,
        b'M' => 1,
        b'S' => 2,
        b'B' => 3,
        _ => 200,
    }
}

// The samples of a picture, as many as there is room for.
pub(crate) fn picture(letters: &str) -> [u8; 356] {
    let mut samples = [0u8; 356];
    for (to, letter) in samples.iter_mut().zip(letters.as_bytes()) {
        *to = sample(*letter);
    }
    samples
}
