//! Rows and payloads that are known.
mod payloads;

use dci_fields::{
    FieldFault, FieldList, FieldName, Format, Given, Widths, fdra_of, fitted, has_fields, name_of,
    order_list, pack, raw_list, width_of,
};
use std::alloc::{AllocError, Global};
use std::process::Abort;
use std::test::Fail;
use test_drafts::cells::{Draft, FOUR, ONE_WITH_WIDE_UPLINK, WIDEST};

/// The list of a format of a cell's handset.
pub fn list_of(
    alloc: Global,
    draft: &Draft,
    format: Format,
    widths: Widths,
) -> Result<FieldList, Fail> {
    let cell = draft.cell(alloc)?;
    if !has_fields(&cell, 0, format) {
        return Err("no fields".into());
    }
    Ok(raw_list(&cell, 0, format, widths))
}

/// The widths of the rows of a list.
fn has_widths(list: &FieldList, widths: &[u32]) -> bool {
    let rows = list.rows();
    if rows.len() != widths.len() {
        return false;
    }
    for (row, width) in rows.iter().zip(widths) {
        if row.width != *width {
            return false;
        }
    }
    true
}

/// A cell, a format, which widths count, and the widths of the rows.
type WidthCase = (&'static Draft, Format, Widths, &'static [u32]);

const LISTS: [WidthCase; 8] = [
    (
        &FOUR,
        Format::F00,
        Widths::Common,
        &[1, 11, 4, 1, 5, 1, 2, 4, 2],
    ),
    (
        &FOUR,
        Format::F10,
        Widths::Common,
        &[1, 9, 4, 1, 5, 1, 2, 4, 2, 2, 3, 3],
    ),
    (
        &FOUR,
        Format::F10,
        Widths::Own,
        &[1, 11, 4, 1, 5, 1, 2, 4, 2, 2, 3, 3],
    ),
    (
        &FOUR,
        Format::F01,
        Widths::Own,
        &[
            1, 0, 11, 4, 0, 5, 1, 2, 4, 1, 0, 2, 0, 0, 3, 2, 0, 0, 0, 0, 1, 1,
        ],
    ),
    (
        &FOUR,
        Format::F11,
        Widths::Own,
        &[
            1, 0, 11, 4, 0, 0, 0, 0, 5, 1, 2, 0, 0, 0, 4, 0, 2, 3, 3, 4, 0, 2, 0, 0, 1,
        ],
    ),
    (
        &WIDEST,
        Format::Order,
        Widths::Own,
        &[1, 14, 6, 1, 6, 4, 10],
    ),
    (
        &WIDEST,
        Format::F01,
        Widths::Own,
        &[
            1, 2, 20, 4, 1, 5, 1, 2, 4, 2, 2, 2, 1, 0, 5, 2, 6, 8, 2, 2, 1, 1,
        ],
    ),
    (
        &WIDEST,
        Format::F11,
        Widths::Own,
        &[
            1, 2, 20, 4, 1, 1, 2, 2, 5, 1, 2, 5, 1, 2, 4, 2, 2, 3, 3, 6, 3, 2, 8, 1, 1,
        ],
    ),
];

#[test]
fn rows_have_the_known_widths(rt: HostRuntime) -> Result<(), Fail> {
    for (draft, format, widths, expected) in LISTS {
        let list = list_of(rt.alloc(), draft, format, widths)?;
        assert!(rt; has_widths(&list, expected));
    }
    Ok(())
}

/// A format, and the words of its rows in order with a space behind each; that of the identifier is empty.
type WordCase = (Format, &'static str);

const WORDS: [WordCase; 4] = [
    (Format::F00, " fdra tdra hopping mcs ndi rv harq tpc "),
    (
        Format::F10,
        " fdra tdra vrb mcs ndi rv harq dai tpc pucch timing ",
    ),
    (
        Format::F01,
        " bwp fdra tdra hopping mcs ndi rv harq dai dai2 tpc sri precoding ports srs csi cbgti ptrs beta dmrs ulsch ",
    ),
    (
        Format::F11,
        " bwp fdra tdra vrb bundling rate_match zp_csi_rs mcs ndi rv mcs2 ndi2 rv2 harq dai tpc pucch timing ports tci srs cbgti flush dmrs ",
    ),
];

/// The words of the rows of a list with a space behind each.
fn words_in(alloc: Global, list: &FieldList) -> Result<Vec<u8>, AllocError> {
    let mut words = Vec::new(alloc);
    for row in list.rows() {
        words.extend_from_slice(row.name.word())?;
        words.push(b' ')?;
    }
    Ok(words)
}

#[test]
fn rows_have_the_known_words(rt: HostRuntime) -> Result<(), Fail> {
    for (format, expected) in WORDS {
        let list = list_of(rt.alloc(), &FOUR, format, Widths::Own)?;
        let words = words_in(rt.alloc(), &list)?;
        assert_eq!(rt; words.as_slice(), expected.as_bytes());
    }
    Ok(())
}

/// One value that is asked for.
fn asked(name: FieldName, value: u64) -> Given {
    Given {
        name: Some(name),
        value,
    }
}

/// The fault of values, where they have one.
fn fault_of(
    rt: &impl Abort,
    list: &FieldList,
    format: Format,
    given: &[Given],
) -> Option<FieldFault> {
    let fits = width_of(list) <= 44;
    assert!(rt; fits);
    pack(list, format, given, 44).err()
}

/// The list of an order with the frequency assignment of a list.
fn order_of(rt: &impl Abort, list: &FieldList) -> FieldList {
    let rows = list.rows();
    let second = rows.len() > 1 && rows[1].name == FieldName::Fdra;
    assert!(rt; second);
    order_list(list)
}

#[test]
fn an_order_has_the_known_bits(rt: HostRuntime) -> Result<(), Fail> {
    let assignment = list_of(rt.alloc(), &WIDEST, Format::F10, Widths::Common)?;
    let list = order_of(&rt, &assignment);
    let given = [asked(FieldName::Preamble, 9), asked(FieldName::Ssb, 5)];
    let fits = width_of(&list) <= 39;
    assert!(rt; fits);
    let payload = pack(&list, Format::Order, &given, 39)
        .ok()
        .expect(&rt, "a payload");
    assert!(rt;
        payloads::spells(
            &payload,
            39,
            0b111_1111_1111_1001_0010_0001_0100_0000_0000_0000
        )
    );
    Ok(())
}

#[test]
fn the_first_fault_counts(rt: HostRuntime) -> Result<(), Fail> {
    let list = list_of(rt.alloc(), &WIDEST, Format::F10, Widths::Common)?;
    let unknown = Given {
        name: None,
        value: 0,
    };
    let cases: [([Given; 2], Option<FieldFault>); 6] = [
        (
            [asked(FieldName::Mcs, 31), unknown],
            Some(FieldFault::Unknown { at: 1 }),
        ),
        (
            [asked(FieldName::Mcs, 32), unknown],
            Some(FieldFault::TooLarge { at: 0, width: 5 }),
        ),
        (
            [asked(FieldName::Hopping, 0), asked(FieldName::Mcs, 32)],
            Some(FieldFault::Unknown { at: 0 }),
        ),
        (
            [asked(FieldName::Fdra, 2047), asked(FieldName::Mcs, 1 << 32)],
            Some(FieldFault::TooLarge { at: 1, width: 5 }),
        ),
        (
            [asked(FieldName::Fdra, 101), asked(FieldName::Fdra, 2047)],
            Some(FieldFault::AllOnes),
        ),
        (
            [asked(FieldName::Fdra, 2047), asked(FieldName::Fdra, 101)],
            None,
        ),
    ];
    for (given, fault) in cases {
        assert!(rt; fault_of(&rt, &list, Format::F10, &given) == fault);
    }
    Ok(())
}

#[test]
fn a_list_is_cut_in_its_frequency_assignment(rt: HostRuntime) -> Result<(), Fail> {
    let list = list_of(
        rt.alloc(),
        &ONE_WITH_WIDE_UPLINK,
        Format::F00,
        Widths::Common,
    )?;
    assert_eq!(rt; width_of(&list), 36);
    let wide = width_of(&list) < 33 + fdra_of(&list) as usize;
    assert!(rt; wide);
    let cut = fitted(&list, 33);
    assert!(rt; has_widths(&cut, &[1, 13, 4, 1, 5, 1, 2, 4, 2]));
    let fault = FieldFault::TooLarge { at: 0, width: 13 };
    assert!(rt; fault_of(&rt, &cut, Format::F00, &[asked(FieldName::Fdra, 8192)]) == Some(fault));
    assert!(rt; fault_of(&rt, &cut, Format::F00, &[asked(FieldName::Fdra, 8191)]).is_none());
    Ok(())
}

#[test]
fn names_have_their_words(rt: HostRuntime) {
    for (word, name) in [
        (b"fdra".as_slice(), FieldName::Fdra),
        (b"zp_csi_rs", FieldName::ZpCsiRs),
        (b"supplementary", FieldName::Supplementary),
        (b"ulsch", FieldName::Ulsch),
    ] {
        assert!(rt; name_of(word) == Some(name));
    }
    for word in [b"".as_slice(), b"colour", b"fdr", b"fdraa"] {
        assert!(rt; name_of(word).is_none());
    }
}
