//! The names of content types and of codes, as plain structs.
ghost use Rattle.std.specs.Prelude.{◌≡◌, ◌≤◌, length};
ghost use Rattle.rds_ffi.specs.Labels.{IsLabel};
ghost use Rattle.rds_ffi.specs.Names.{code_name, type_name};

/// The most bytes of a name, with a 0 at its end.
const ROOM: usize = 31;

/// A name: its first `length` bytes. The others are 0.
#[repr(C)]
#[derive(Clone, Copy)]
pub struct RdsrtLabel {
    pub bytes: [u8; ROOM],
    pub length: u8,
}

/// Writes the name of a content type of RT+. It is empty if the content type has no name.
#[unsafe(no_mangle)]
pub extern "C" fn rdsrt_type_name(content_type: u8, name: &mut RdsrtLabel)
    ensures { IsLabel (type_name content_type) name.new }
{
    *name = label_of(type_of(content_type));
}

/// Writes the name of an error or of a fault. It is empty for all other codes.
#[unsafe(no_mangle)]
pub extern "C" fn rdsrt_code_name(code: u32, name: &mut RdsrtLabel)
    ensures { IsLabel (code_name code) name.new }
{
    *name = label_of(code_of(code));
}

/// Returns the name as a plain struct.
fn label_of(name: &[u8]) -> RdsrtLabel
    requires { length name.now ≤ 30 }
    ensures { IsLabel name.now result }
{
    let mut bytes = [0; ROOM];
    bytes[..name.len()].copy_from_slice(name);
    RdsrtLabel {
        bytes,
        length: name.len() as u8,
    }
}

/// Returns the name of a content type, or no bytes if it has none.
fn type_of(content_type: u8) -> &'static [u8]
    ensures name { result.now ≡ type_name content_type }
    ensures short { length result.now ≤ 30 }
{
    match content_type {
        0 => b"DUMMY_CLASS",
        1 => b"ITEM.TITLE",
        2 => b"ITEM.ALBUM",
        3 => b"ITEM.TRACKNUMBER",
        4 => b"ITEM.ARTIST",
        5 => b"ITEM.COMPOSITION",
        6 => b"ITEM.MOVEMENT",
        7 => b"ITEM.CONDUCTOR",
        8 => b"ITEM.COMPOSER",
        9 => b"ITEM.BAND",
        10 => b"ITEM.COMMENT",
        11 => b"ITEM.GENRE",
        12 => b"INFO.NEWS",
        13 => b"INFO.NEWS.LOCAL",
        14 => b"INFO.STOCKMARKET",
        15 => b"INFO.SPORT",
        16 => b"INFO.LOTTERY",
        17 => b"INFO.HOROSCOPE",
        18 => b"INFO.DAILY_DIVERSION",
        19 => b"INFO.HEALTH",
        20 => b"INFO.EVENT",
        21 => b"INFO.SCENE",
        22 => b"INFO.CINEMA",
        23 => b"INFO.TV",
        24 => b"INFO.DATE_TIME",
        25 => b"INFO.WEATHER",
        26 => b"INFO.TRAFFIC",
        27 => b"INFO.ALARM",
        28 => b"INFO.ADVERTISEMENT",
        29 => b"INFO.URL",
        30 => b"INFO.OTHER",
        31 => b"STATIONNAME.SHORT",
        32 => b"STATIONNAME.LONG",
        33 => b"PROGRAMME.NOW",
        34 => b"PROGRAMME.NEXT",
        35 => b"PROGRAMME.PART",
        36 => b"PROGRAMME.HOST",
        37 => b"PROGRAMME.EDITORIAL_STAFF",
        38 => b"PROGRAMME.FREQUENCY",
        39 => b"PROGRAMME.HOMEPAGE",
        40 => b"PROGRAMME.SUBCHANNEL",
        41 => b"PHONE.HOTLINE",
        42 => b"PHONE.STUDIO",
        43 => b"PHONE.OTHER",
        44 => b"SMS.STUDIO",
        45 => b"SMS.OTHER",
        46 => b"EMAIL.HOTLINE",
        47 => b"EMAIL.STUDIO",
        48 => b"EMAIL.OTHER",
        49 => b"MMS.OTHER",
        50 => b"CHAT",
        51 => b"CHAT.CENTRE",
        52 => b"VOTE.QUESTION",
        53 => b"VOTE.CENTRE",
        54 => b"",
        55 => b"",
        56 => b"",
        57 => b"",
        58 => b"",
        59 => b"PLACE",
        60 => b"APPOINTMENT",
        61 => b"IDENTIFIER",
        62 => b"PURCHASE",
        63 => b"GET_DATA",
        64..=255 => b"",
    }
}

/// Returns the name of an error or of a fault, or no bytes for any other code.
fn code_of(code: u32) -> &'static [u8]
    ensures name { result.now ≡ code_name code }
    ensures short { length result.now ≤ 30 }
{
    match code {
        0 => b"",
        1 => b"",
        2 => b"RDSRT_BAD_ARGUMENT",
        3 => b"RDSRT_SILENT",
        4 => b"RDSRT_HELD",
        5 => b"RDSRT_NO_TEXT",
        6 => b"RDSRT_OUT_OF_TEXT_1",
        7 => b"RDSRT_OUT_OF_TEXT_2",
        8 => b"RDSRT_TOO_LONG",
        9 => b"RDSRT_BAD_BYTE",
        10 => b"RDSRT_BAD_TAGS",
        11 => b"RDSRT_NOT_UTF8",
        12 => b"RDSRT_BAD_ESCAPE",
        13 => b"RDSRT_NO_CHARACTER",
        14 => b"RDSRT_NO_ROOM",
        15 => b"",
        16 => b"",
        17 => b"RDSRT_FAULT_CHANGED",
        18 => b"RDSRT_FAULT_NOT_ONE_TEXT",
        19 => b"RDSRT_FAULT_EARLY_FLAG",
        20 => b"RDSRT_FAULT_EARLY_TAG",
        21 => b"RDSRT_FAULT_TAG_OUTSIDE",
        22..=0xFFFF_FFFF => b"",
    }
}
