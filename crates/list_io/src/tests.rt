use super::*;

fn number(value: i32, end: usize) -> Item {
    Item::Number { value, end }
}

fn truth(value: bool, end: usize) -> Item {
    Item::Truth { value, end }
}

#[test]
fn items_end_before_blanks_line_ends_and_commas(rt: HostRuntime) {
    assert_eq!(rt; next_item(b" \t\r\n7,8", 0, true), number(7, 5));
    assert_eq!(rt; next_item(b"7 , 8", 1, false), number(8, 5));
    assert_eq!(rt; next_item(b"7,8", 1, true), Item::Bad);
    assert_eq!(rt; next_item(b"7,,8", 1, false), Item::Bad);
    assert_eq!(rt; next_item(b"7 \n", 1, false), Item::End);
    assert_eq!(rt; next_item(b"", 0, true), Item::End);
}

#[test]
fn an_item_is_a_default_integer(rt: HostRuntime) {
    assert_eq!(rt;
        next_item(b"+2147483647", 0, true),
        number(2_147_483_647, 11)
    );
    assert_eq!(rt;
        next_item(b"-2147483648", 0, true),
        number(-2_147_483_648, 11)
    );
    assert_eq!(rt; next_item(b"2147483648", 0, true), Item::Bad);
    assert_eq!(rt; next_item(b"-2147483649", 0, true), Item::Bad);
    assert_eq!(rt;
        next_item(b"00000000000000000000012", 0, true),
        number(12, 23)
    );
    assert_eq!(rt; next_item(b"99999999999999999999999x", 0, true), Item::Bad);
    assert_eq!(rt; next_item(b"3*4", 0, true), Item::Bad);
    assert_eq!(rt; next_item(b"-", 0, true), Item::Bad);
}

#[test]
fn an_item_is_a_truth_value_in_any_case(rt: HostRuntime) {
    assert_eq!(rt; next_item(b".tRuE. F", 0, true), truth(true, 6));
    assert_eq!(rt; next_item(b".tRuE. F", 6, false), truth(false, 8));
    assert_eq!(rt; next_item(b"T", 0, true), truth(true, 1));
    assert_eq!(rt; next_item(b"false", 0, true), truth(false, 5));
    assert_eq!(rt; next_item(b".f.", 0, true), truth(false, 3));
    assert_eq!(rt; next_item(b"truth", 0, true), Item::Bad);
}

#[test]
fn the_rest_of_a_line_is_skipped(rt: HostRuntime) {
    assert_eq!(rt; next_line(b"1 2\n3", 1), 4);
    assert_eq!(rt; next_line(b"1 2\n3", 4), 5);
    assert_eq!(rt; next_line(b"", 0), 0);
}
