use super::*;
use axp_pte::Pte;
use std::test::*;

/// Entries of one process, by their page frame numbers: V, KRE and KWE.
const SEVEN: u64 = 0x0000_0007_0000_1101;

const EIGHT: u64 = 0x0000_0008_0000_1101;

/// The same with ASM.
const NINE_FOR_ALL: u64 = 0x0000_0009_0000_1111;

/// Puts an entry where the page is not found.
fn put_new(tb: &mut Tb, page: u64, asn: u32, word: u64) -> bool {
    let is_new = tb.find(page, asn).is_none();
    if is_new {
        tb.put(page, asn, Pte::of(word));
    }
    is_new
}

/// What is found of a page in the address spaces 1, 2 and 3.
fn found_in(tb: &Tb, page: u64) -> [Option<u64>; 3] {
    [1, 2, 3].map(|asn| tb.find(page, asn).map(Pte::word))
}

#[test]
fn entries_are_found_by_page_and_address_space(rt: HostRuntime) {
    let mut tb = Tb::empty();
    assert_eq!(rt; found_in(&tb, 5), [None, None, None]);
    assert_eq!(rt; put_new(&mut tb, 5, 1, SEVEN), true);
    assert_eq!(rt; put_new(&mut tb, 5, 1, EIGHT), false);
    assert_eq!(rt; put_new(&mut tb, 5, 3, EIGHT), true);
    assert_eq!(rt; found_in(&tb, 5), [Some(SEVEN), None, Some(EIGHT)]);
    assert_eq!(rt; found_in(&tb, 6), [None, None, None]);
    // an entry with ASM serves every address space, and has no second
    assert_eq!(rt; put_new(&mut tb, 6, 2, NINE_FOR_ALL), true);
    assert_eq!(rt;
        found_in(&tb, 6),
        [Some(NINE_FOR_ALL), Some(NINE_FOR_ALL), Some(NINE_FOR_ALL)]
    );
    assert_eq!(rt; put_new(&mut tb, 6, 1, SEVEN), false);
    // put under another number it comes before an earlier entry of one process
    assert_eq!(rt; put_new(&mut tb, 5, 2, NINE_FOR_ALL), true);
    assert_eq!(rt;
        found_in(&tb, 5),
        [Some(NINE_FOR_ALL), Some(NINE_FOR_ALL), Some(NINE_FOR_ALL)]
    );
}

#[test]
fn drops_take_what_they_name(rt: HostRuntime) {
    let mut tb = Tb::empty();
    // of page 5 one of process 1, one of process 3, and one for all
    put_new(&mut tb, 5, 1, SEVEN);
    put_new(&mut tb, 5, 3, EIGHT);
    put_new(&mut tb, 5, 2, NINE_FOR_ALL);
    put_new(&mut tb, 6, 1, SEVEN);
    put_new(&mut tb, 7, 1, NINE_FOR_ALL);
    // of page 5 those of process 1 and for all go
    tb.drop_page(5, 1);
    assert_eq!(rt; found_in(&tb, 5), [None, None, Some(EIGHT)]);
    tb.drop_page(5, 2);
    assert_eq!(rt; found_in(&tb, 5), [None, None, Some(EIGHT)]);
    assert_eq!(rt; found_in(&tb, 6), [Some(SEVEN), None, None]);
    // of the entries of processes none is left
    tb.drop_process();
    assert_eq!(rt; found_in(&tb, 5), [None, None, None]);
    assert_eq!(rt; found_in(&tb, 6), [None, None, None]);
    assert_eq!(rt;
        found_in(&tb, 7),
        [Some(NINE_FOR_ALL), Some(NINE_FOR_ALL), Some(NINE_FOR_ALL)]
    );
    // an entry with ASM goes by any number
    put_new(&mut tb, 8, 1, NINE_FOR_ALL);
    tb.drop_page(7, 3);
    assert_eq!(rt; found_in(&tb, 7), [None, None, None]);
    assert_eq!(rt;
        found_in(&tb, 8),
        [Some(NINE_FOR_ALL), Some(NINE_FOR_ALL), Some(NINE_FOR_ALL)]
    );
    tb.drop_all();
    assert_eq!(rt; found_in(&tb, 8), [None, None, None]);
}

#[test]
fn the_33rd_entry_stands_alone(rt: HostRuntime) {
    let mut tb = Tb::empty();
    for page in 0..32 {
        assert_eq!(rt; put_new(&mut tb, page, 1, SEVEN), true, "page {page}");
    }
    for page in 0..32 {
        assert_eq!(rt; tb.find(page, 1), Some(Pte::of(SEVEN)), "page {page}");
    }
    put_new(&mut tb, 32, 1, EIGHT);
    for page in 0..32 {
        assert_eq!(rt; tb.find(page, 1), None, "page {page}");
    }
    assert_eq!(rt; tb.find(32, 1), Some(Pte::of(EIGHT)));
    put_new(&mut tb, 33, 1, SEVEN);
    assert_eq!(rt; tb.find(32, 1), Some(Pte::of(EIGHT)));
    assert_eq!(rt; tb.find(33, 1), Some(Pte::of(SEVEN)));
}
