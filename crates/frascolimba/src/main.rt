#![tactic(auto)]

// The program: reads a case from standard input and writes its report to standard output.

// No length field can name as many bytes as the buffer holds, so what stands behind them changes no answer.
fn main() {
    let mut input = io::large_buffer();
    let n = io::read_full(0, &mut input);
    judge::told(&input[..n]);
}
