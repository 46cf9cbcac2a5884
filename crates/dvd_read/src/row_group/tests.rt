//! That rows are proposed for. No clause sees it: a row that no proposal is right for is decoded by itself, to the same
//! answer in more time.
use super::RowGroup;
use dvd_capture::RowMarks;
use rs_code::Pi;
use rs_lanes::row_values;

// 32 rows of zeros, with an error in each of the first `wrong`.
fn rows_with_errors(wrong: usize) -> [[u8; 182]; 32] {
    let mut rows = [[0; 182]; 32];
    for n in 0..wrong.min(32) {
        rows[n][5 * n] = 0x5A;
    }
    rows
}

// For how many of 32 rows the proposals are right. For a codeword they are where none is made, too.
fn count_believed(rows: &[[u8; 182]; 32], marks: &[RowMarks; 32]) -> u32 {
    let code = Pi::new();
    let group = RowGroup::new(&code, &row_values(rows, 0), 0, marks);
    let mut word = [0; 182];
    // It wraps, since nothing bounds it here.
    let mut count = 0u32;
    for n in 0..32usize {
        let syndromes = code.syndromes(&rows[n]);
        let fix = group.proposals.believe(n, &syndromes, &rows[n], &mut word);
        count = count.wrapping_add(u32::from(fix.is_some()));
    }
    count
}

// Rows with marks don't count, since they are decoded by themselves.
#[test]
fn rows_are_proposed_for_where_four_without_marks_are_wrong(rt: HostRuntime) {
    let clear = [RowMarks::none(); 32];
    for (wrong, believed) in [(0usize, 32u32), (3, 29), (4, 32), (32, 32)] {
        assert_eq!(rt; count_believed(&rows_with_errors(wrong), &clear), believed);
    }
    let mut marks = [RowMarks::none(); 32];
    marks[0].set(7, true);
    assert_eq!(rt; count_believed(&rows_with_errors(4), &marks), 28);
}
