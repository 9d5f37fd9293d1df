// Where a line ends.
ghost use Rattle.std.specs.Prelude.{◌≡◌, ◌≤◌, length, IfSome};
ghost use Rattle.simulator.specs.Lines.{line_end};

// Where the first line ends: the count of its bytes, with the line feed.
pub(crate) fn line_end(input: &[u8]) -> Option<usize>
    ensures end { result ≡ line_end input.now }
    ensures within { IfSome result (λ n. (1 ≤ n) × (n ≤ length input.now)) }
{
    input
        .iter()
        .position(|byte| *byte == b'\n')
        .map(|at| at + 1)
}
