//! Moments against values that another program computed: no clause says that the definitions are those of the calendar.
use lei_shapes::Moment;
use std::test::Fail;

// Seconds since 1970-01-01T00:00:00Z, the text and the day, as Python's `datetime` gives them.
const MOMENTS: [(i64, &str, i32); 20] = [
    (-62_135_596_800, "0001-01-01T00:00:00Z", -719_162),
    (-62_104_060_801, "0001-12-31T23:59:59Z", -718_798),
    (-62_035_848_000, "0004-02-29T12:00:00Z", -718_008),
    (-59_006_361_600, "0100-03-01T00:00:00Z", -682_944),
    (-49_539_254_401, "0400-02-29T23:59:59Z", -573_372),
    (-12_219_292_800, "1582-10-15T00:00:00Z", -141_427),
    (-2_203_891_201, "1900-02-28T23:59:59Z", -25_509),
    (-2_203_891_200, "1900-03-01T00:00:00Z", -25_508),
    (-86_400, "1969-12-31T00:00:00Z", -1),
    (-1, "1969-12-31T23:59:59Z", -1),
    (0, "1970-01-01T00:00:00Z", 0),
    (86_399, "1970-01-01T23:59:59Z", 0),
    (86_400, "1970-01-02T00:00:00Z", 1),
    (951_808_089, "2000-02-29T07:08:09Z", 11_016),
    (1_735_689_599, "2024-12-31T23:59:59Z", 20_088),
    (1_736_499_600, "2025-01-10T09:00:00Z", 20_098),
    (4_107_542_399, "2100-02-28T23:59:59Z", 47_540),
    (4_107_542_400, "2100-03-01T00:00:00Z", 47_541),
    (253_281_205_230, "9996-02-29T10:20:30Z", 2_931_495),
    (253_370_764_799, "9998-12-31T23:59:59Z", 2_932_531),
];

const NO_MOMENTS: [i64; 5] = [
    i64::MIN,
    -62_135_596_801,
    253_370_764_800,
    253_402_300_799,
    i64::MAX,
];

// Whether the moment with these seconds has this text and this day, and is read from the text.
fn is_shown(seconds: i64, text: &str, day: i32) -> bool {
    match Moment::of(seconds) {
        Some(moment) => {
            moment.seconds() == seconds
                && moment.text().as_slice() == text.as_bytes()
                && moment.day() == day
                && Moment::read(text) == Some(moment)
        }
        None => false,
    }
}

#[test]
fn moments_have_their_text_and_day(rt: HostRuntime) -> Result<(), Fail> {
    for (seconds, text, day) in MOMENTS {
        assert!(rt; is_shown(seconds, text, day), "at {seconds}");
    }
    for seconds in NO_MOMENTS {
        assert!(rt; Moment::of(seconds).is_none(), "at {seconds}");
    }
    Ok(())
}
