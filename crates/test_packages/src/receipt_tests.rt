// Rows of receipts: as a store has them, in their ranges or not, and as they come in. What is
// expected follows from the columns of the profile.

use crate::changes::Entered;
use crate::lines::read_line;
use crate::steps::{new_store, take_steps, wrong};
use package_tables::fault::Fault;
use sqlite::{Alter, Connection};
use std::alloc::Global;
use std::test::Fail;
use test_values::{Checked, committed};

// Each but the first two has a row out of its ranges.
const RANGES: &str = "new archive
alter INSERT INTO sheet_receipts VALUES (4, '00000000-0000-0000-0000-00000000000f', \
    '2026-11-22T09:00:00.000Z', '', '', '', 1, 0, 0, 0, 5)
alter INSERT INTO sheet_items VALUES (4, 0, 1, '00000000-0000-0000-0000-000000000006', '', 5, \
    'abababababababababababababababababababababababababababababababab')
form in_range => [yes]

new archive
# two things, of which the link's row is stored first
alter INSERT INTO sheet_receipts VALUES (30, '00000000-0000-0000-0000-00000000000e', \
    '2026-11-22T09:00:00.000Z', '', '00000000-0000-0000-0000-000000000001', '', 0, 1, 0, 1, 7)
alter INSERT INTO sheet_items VALUES (30, 1, 4, '00000000-0000-0000-0000-000000000006', \
    '00000000-0000-0000-0000-0000000000a2', 0, ''), (30, 0, 2, '00000000-0000-0000-0000-0000000000a2', '', \
    7, 'cdcdcdcdcdcdcdcdcdcdcdcdcdcdcdcdcdcdcdcdcdcdcdcdcdcdcdcdcdcdcdcd')
form in_range => [yes]

new archive
# a moment that is none
alter INSERT INTO sheet_receipts VALUES (4, '00000000-0000-0000-0000-00000000000f', \
    '2026-11-22T24:00:00.000Z', '', '', '', 1, 0, 0, 0, 5)
alter INSERT INTO sheet_items VALUES (4, 0, 1, '00000000-0000-0000-0000-000000000006', '', 5, \
    'abababababababababababababababababababababababababababababababab')
form in_range => [no]

new archive
# a request that is no stored UUID
alter INSERT INTO sheet_receipts VALUES (4, '00000000-0000-0000-0000-00000000000F', \
    '2026-11-22T09:00:00.000Z', '', '', '', 1, 0, 0, 0, 5)
alter INSERT INTO sheet_items VALUES (4, 0, 1, '00000000-0000-0000-0000-000000000006', '', 5, \
    'abababababababababababababababababababababababababababababababab')
form in_range => [no]

new archive
alter INSERT INTO sheet_receipts VALUES (4, '', '2026-11-22T09:00:00.000Z', '', '', '', 1, 0, 0, 0, 5)
alter INSERT INTO sheet_items VALUES (4, 0, 1, '00000000-0000-0000-0000-000000000006', '', 5, \
    'abababababababababababababababababababababababababababababababab')
form in_range => [no]

new archive
# an end that is none
alter INSERT INTO sheet_receipts VALUES (4, '00000000-0000-0000-0000-00000000000f', \
    '2026-11-22T09:00:00.000Z', '', 'x', '', 1, 0, 0, 0, 5)
alter INSERT INTO sheet_items VALUES (4, 0, 1, '00000000-0000-0000-0000-000000000006', '', 5, \
    'abababababababababababababababababababababababababababababababab')
form in_range => [no]

new archive
alter INSERT INTO sheet_receipts VALUES (4, '00000000-0000-0000-0000-00000000000f', \
    '2026-11-22T09:00:00.000Z', '', '', 'x', 1, 0, 0, 0, 5)
alter INSERT INTO sheet_items VALUES (4, 0, 1, '00000000-0000-0000-0000-000000000006', '', 5, \
    'abababababababababababababababababababababababababababababababab')
form in_range => [no]

new archive
# a number that is none
alter INSERT INTO sheet_receipts VALUES (-4, '00000000-0000-0000-0000-00000000000f', \
    '2026-11-22T09:00:00.000Z', '', '', '', 1, 0, 0, 0, 5)
alter INSERT INTO sheet_items VALUES (-4, 0, 1, '00000000-0000-0000-0000-000000000006', '', 5, \
    'abababababababababababababababababababababababababababababababab')
form in_range => [no]

new archive
alter INSERT INTO sheet_receipts VALUES (0, '00000000-0000-0000-0000-00000000000f', \
    '2026-11-22T09:00:00.000Z', '', '', '', 1, 0, 0, 0, 5)
alter INSERT INTO sheet_items VALUES (0, 0, 1, '00000000-0000-0000-0000-000000000006', '', 5, \
    'abababababababababababababababababababababababababababababababab')
form in_range => [no]

new archive
# a count below nothing
alter INSERT INTO sheet_receipts VALUES (4, '00000000-0000-0000-0000-00000000000f', \
    '2026-11-22T09:00:00.000Z', '', '', '', -1, 0, 0, 0, 5)
alter INSERT INTO sheet_items VALUES (4, 0, 1, '00000000-0000-0000-0000-000000000006', '', 5, \
    'abababababababababababababababababababababababababababababababab')
form in_range => [no]

new archive
alter INSERT INTO sheet_receipts VALUES (4, '00000000-0000-0000-0000-00000000000f', \
    '2026-11-22T09:00:00.000Z', '', '', '', 1, 0, 0, 0, -5)
alter INSERT INTO sheet_items VALUES (4, 0, 1, '00000000-0000-0000-0000-000000000006', '', 5, \
    'abababababababababababababababababababababababababababababababab')
form in_range => [no]

new archive
# the thing at the second place
alter INSERT INTO sheet_receipts VALUES (4, '00000000-0000-0000-0000-00000000000f', \
    '2026-11-22T09:00:00.000Z', '', '', '', 1, 0, 0, 0, 5)
alter INSERT INTO sheet_items VALUES (4, 1, 1, '00000000-0000-0000-0000-000000000006', '', 5, \
    'abababababababababababababababababababababababababababababababab')
form in_range => [no]

new archive
# that of another receipt
alter INSERT INTO sheet_receipts VALUES (4, '00000000-0000-0000-0000-00000000000f', \
    '2026-11-22T09:00:00.000Z', '', '', '', 1, 0, 0, 0, 5)
alter INSERT INTO sheet_items VALUES (5, 0, 1, '00000000-0000-0000-0000-000000000006', '', 5, \
    'abababababababababababababababababababababababababababababababab')
form in_range => [no]

new archive
# a kind that is none
alter INSERT INTO sheet_receipts VALUES (4, '00000000-0000-0000-0000-00000000000f', \
    '2026-11-22T09:00:00.000Z', '', '', '', 1, 0, 0, 0, 5)
alter INSERT INTO sheet_items VALUES (4, 0, 0, '00000000-0000-0000-0000-000000000006', '', 5, \
    'abababababababababababababababababababababababababababababababab')
form in_range => [no]

new archive
alter INSERT INTO sheet_receipts VALUES (4, '00000000-0000-0000-0000-00000000000f', \
    '2026-11-22T09:00:00.000Z', '', '', '', 1, 0, 0, 0, 5)
alter INSERT INTO sheet_items VALUES (4, 0, 7, '00000000-0000-0000-0000-000000000006', '', 5, \
    'abababababababababababababababababababababababababababababababab')
form in_range => [no]

new archive
alter INSERT INTO sheet_receipts VALUES (4, '00000000-0000-0000-0000-00000000000f', \
    '2026-11-22T09:00:00.000Z', '', '', '', 1, 0, 0, 0, 5)
alter INSERT INTO sheet_items VALUES (4, 0, 257, '00000000-0000-0000-0000-000000000006', '', 5, \
    'abababababababababababababababababababababababababababababababab')
form in_range => [no]

new archive
# a thing that is no stored UUID
alter INSERT INTO sheet_receipts VALUES (4, '00000000-0000-0000-0000-00000000000f', \
    '2026-11-22T09:00:00.000Z', '', '', '', 1, 0, 0, 0, 5)
alter INSERT INTO sheet_items VALUES (4, 0, 1, '6', '', 5, \
    'abababababababababababababababababababababababababababababababab')
form in_range => [no]

new archive
# an item with another end
alter INSERT INTO sheet_receipts VALUES (4, '00000000-0000-0000-0000-00000000000f', \
    '2026-11-22T09:00:00.000Z', '', '', '', 1, 0, 0, 0, 5)
alter INSERT INTO sheet_items VALUES (4, 0, 1, '00000000-0000-0000-0000-000000000006', \
    '00000000-0000-0000-0000-0000000000a2', 5, \
    'abababababababababababababababababababababababababababababababab')
form in_range => [no]

new archive
# a size below nothing
alter INSERT INTO sheet_receipts VALUES (4, '00000000-0000-0000-0000-00000000000f', \
    '2026-11-22T09:00:00.000Z', '', '', '', 1, 0, 0, 0, 5)
alter INSERT INTO sheet_items VALUES (4, 0, 1, '00000000-0000-0000-0000-000000000006', '', -5, \
    'abababababababababababababababababababababababababababababababab')
form in_range => [no]

new archive
# a digest that is none
alter INSERT INTO sheet_receipts VALUES (4, '00000000-0000-0000-0000-00000000000f', \
    '2026-11-22T09:00:00.000Z', '', '', '', 1, 0, 0, 0, 5)
alter INSERT INTO sheet_items VALUES (4, 0, 1, '00000000-0000-0000-0000-000000000006', '', 5, \
    'abababababababababababababababababababababababababababababababa')
form in_range => [no]

new archive
alter INSERT INTO sheet_receipts VALUES (4, '00000000-0000-0000-0000-00000000000f', \
    '2026-11-22T09:00:00.000Z', '', '', '', 1, 0, 0, 0, 5)
alter INSERT INTO sheet_items VALUES (4, 0, 1, '00000000-0000-0000-0000-000000000006', '', 5, \
    'ABABABABABABABABABABABABABABABABABABABABABABABABABABABABABABABAB')
form in_range => [no]

new archive
# a link that has a size
alter INSERT INTO sheet_receipts VALUES (4, '00000000-0000-0000-0000-00000000000f', \
    '2026-11-22T09:00:00.000Z', '', '', '', 1, 0, 0, 0, 5)
alter INSERT INTO sheet_items VALUES (4, 0, 4, '00000000-0000-0000-0000-000000000006', \
    '00000000-0000-0000-0000-0000000000a2', 5, \
    'abababababababababababababababababababababababababababababababab')
form in_range => [no]

new archive
# a link without its other end
alter INSERT INTO sheet_receipts VALUES (4, '00000000-0000-0000-0000-00000000000f', \
    '2026-11-22T09:00:00.000Z', '', '', '', 1, 0, 0, 0, 5)
alter INSERT INTO sheet_items VALUES (4, 0, 4, '00000000-0000-0000-0000-000000000006', '', 0, '')
form in_range => [no]";

// Two receipts of a medium each.
const ENTERED: &str = "new archive
enter of 7 9 2
enter of 8 10 3
rows SELECT seq || ' ' || request || ' ' || at || ' ' || line || ' ' || source || ' ' || target || ' ' || \
    n_tiles || ' ' || n_media || ' ' || n_rows || ' ' || n_links || ' ' || n_bytes FROM sheet_receipts \
    ORDER BY seq => [7 00000000-0000-0000-0000-000000000009 2026-11-22T09:00:00.000Z the line  \
    00000000-0000-0000-0000-000000000001 0 1 0 0 3;8 00000000-0000-0000-0000-00000000000a \
    2026-11-22T09:00:00.000Z the line  00000000-0000-0000-0000-000000000001 0 1 0 0 3;]
rows SELECT seq || ' ' || position || ' ' || kind || ' ' || base || ' ' || other || ' ' || size || ' ' || \
    fingerprint FROM sheet_items ORDER BY seq, position => [7 0 2 00000000-0000-0000-0000-000000000002  3 \
    ;8 0 2 00000000-0000-0000-0000-000000000003  3 ;]";

#[test]
fn a_row_out_of_its_ranges_is_seen(rt: HostRuntime) -> Result<(), Fail> {
    assert_eq!(rt; wrong(rt.alloc(), RANGES)?.as_str(), "");
    Ok(())
}

#[test]
fn receipts_come_in(rt: HostRuntime) -> Result<(), Fail> {
    assert_eq!(rt; wrong(rt.alloc(), ENTERED)?.as_str(), "");
    Ok(())
}

// Three receipts, and what is there before and after the fourth.
const THREE: &str = "enter of 1 11 21
enter of 2 12 22
enter of 3 13 23";

const FOURTH: &str = "enter of 4 14 24";

const THREE_ALONE: &str = "rows SELECT '' || seq FROM sheet_receipts ORDER BY seq => [1;2;3;]
rows SELECT '' || seq FROM sheet_items ORDER BY seq => [1;2;3;]";

const FOUR: &str = "rows SELECT '' || seq FROM sheet_receipts ORDER BY seq => [1;2;3;4;]
rows SELECT '' || seq FROM sheet_items ORDER BY seq => [1;2;3;4;]";

// Enters the fourth. Where memory is refused to it, what is there is as it was, and it then comes
// in.
fn enter_fourth<S: Alter>(
    a: Global,
    conn: &mut Connection<S>,
    checked: &mut Checked,
) -> Result<(), Fault> {
    match committed(conn, &Entered(a, read_line(FOURTH))) {
        Ok(_) => Ok(()),
        Err(Fault::OutOfMemory) => {
            take_steps(a, conn, THREE_ALONE, checked);
            take_steps(a, conn, FOURTH, checked);
            Ok(())
        }
        Err(Fault::StoreFault) => Err(Fault::StoreFault),
    }
}

fn wrong_of_four<S: Alter + Drop>(
    a: Global,
    made: Result<Connection<S>, Fault>,
) -> Result<String, Fault> {
    let mut conn = made?;
    let mut checked = Checked::new(a);
    take_steps(a, &mut conn, THREE, &mut checked);
    enter_fourth(a, &mut conn, &mut checked)?;
    take_steps(a, &mut conn, FOUR, &mut checked);
    Ok(String::from_str(a, checked.wrong())?)
}

// `torture/failing_allocations.sh` runs this test with each allocation refused in turn.
#[test]
fn a_receipt_comes_whole_or_not_at_all(rt: HostRuntime) -> Result<(), Fail> {
    let alloc = rt.alloc();
    let wrong = wrong_of_four(alloc, new_store(alloc, read_line("new archive")))?;
    assert_eq!(rt; wrong.as_str(), "");
    Ok(())
}
