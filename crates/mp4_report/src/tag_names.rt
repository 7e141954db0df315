//! The names of metadata, by the types of its boxes.

ghost use Rattle.std.specs.Prelude.{◌≡◌, map, option_copied};
ghost use Rattle.mp4_report.specs.TagNames.{name_in, name_of};

use mp4_codec::FourCC;

/// The names of items of iTunes, which the QuickTime file format has for texts of user data too.
static NAMES: [([u8; 4], &str); 40] = [
    (*b"\xa9nam", "title"),
    (*b"\xa9ART", "artist"),
    (*b"aART", "album_artist"),
    (*b"\xa9alb", "album"),
    (*b"\xa9day", "date"),
    (*b"\xa9cmt", "comment"),
    (*b"\xa9gen", "genre"),
    (*b"gnre", "genre"),
    (*b"\xa9too", "tool"),
    (*b"\xa9swr", "tool"),
    (*b"\xa9enc", "encoded_by"),
    (*b"\xa9wrt", "composer"),
    (*b"\xa9com", "composer"),
    (*b"\xa9lyr", "lyrics"),
    (*b"\xa9grp", "grouping"),
    (*b"\xa9dir", "director"),
    (*b"\xa9prd", "producer"),
    (*b"\xa9prf", "performers"),
    (*b"\xa9cpy", "copyright"),
    (*b"cprt", "copyright"),
    (*b"\xa9des", "description"),
    (*b"desc", "description"),
    (*b"ldes", "long_description"),
    (*b"\xa9inf", "information"),
    (*b"\xa9key", "keywords"),
    (*b"\xa9mak", "make"),
    (*b"\xa9mod", "model"),
    (*b"\xa9xyz", "location"),
    (*b"\xa9loc", "location"),
    (*b"trkn", "track"),
    (*b"disk", "disc"),
    (*b"tmpo", "tempo"),
    (*b"cpil", "compilation"),
    (*b"tvsh", "show"),
    (*b"tvsn", "season"),
    (*b"tves", "episode"),
    (*b"tven", "episode_id"),
    (*b"tvnn", "network"),
    (*b"rtng", "rating"),
    (*b"stik", "media_kind"),
];

/// The name that a list has for this type of box.
#[tactic(auto, using(crate::proofs::Names::name_steps))]
fn name_in(names: &[([u8; 4], &'static str)], code: FourCC) -> Option<&'static str>
    ensures { option_copied result ≡ name_in (map (λ pair. (pair.0, pair.1.now)) names.now) code.value }
{
    for (named, name) in names {
        if *named == code.value {
            return Some(*name);
        }
    }
    None
}

/// The name of what a box of this type says; `None` for a type without a name here.
#[tactic(auto, unfolding(crate::specs::TagNames::names))]
pub(crate) fn name_of(code: FourCC) -> Option<&'static str>
    ensures { option_copied result ≡ name_of code }
{
    name_in(&NAMES, code)
}
