//! The language of a track.

ghost use Rattle.std.specs.Prelude.{◌≡◌, ◌-◌, ◌<◌, map, option_copied, slice_get};
ghost use Rattle.mp4_report.specs.Languages.{language_form, language_said, macintosh_language};

/// The smallest character of a language in a media header, which stands for 0.
const ZERO: u8 = 0x60;

/// The character whose bits are all set.
const UNSET: u8 = 0x7f;

/// The languages of Macintosh from code 0 on, as their ISO 639-2/T codes (QuickTime File Format, "Language
/// Code Values").
const FIRST_LANGUAGES: [&str; 95] = [
    "eng", "fra", "deu", "ita", "nld", "swe", "spa", "dan", "por", "nor", "heb", "jpn", "ara",
    "fin", "ell", "isl", "mlt", "tur", "hrv", "zho", "urd", "hin", "tha", "kor", "lit", "pol",
    "hun", "est", "lav", "smi", "fao", "fas", "rus", "zho", "nld", "gle", "sqi", "ron", "ces",
    "slk", "slv", "yid", "srp", "mkd", "bul", "ukr", "bel", "uzb", "kaz", "aze", "aze", "hye",
    "kat", "ron", "kir", "tgk", "tuk", "mon", "mon", "pus", "kur", "kas", "snd", "bod", "nep",
    "san", "mar", "ben", "asm", "guj", "pan", "ori", "mal", "kan", "tam", "tel", "sin", "mya",
    "khm", "lao", "vie", "ind", "tgl", "msa", "msa", "amh", "tir", "orm", "som", "swa", "kin",
    "run", "nya", "mlg", "epo",
];

/// The first code of the other languages.
const LATER: usize = 128;

/// The languages of Macintosh from code 128 on.
const LATER_LANGUAGES: [&str; 23] = [
    "cym", "eus", "cat", "lat", "que", "grn", "aym", "tat", "uig", "dzo", "jav", "sun", "glg",
    "afr", "bre", "iku", "gla", "glv", "gle", "ton", "ell", "kal", "aze",
];

/// How a media header says a language.
#[derive(Clone, Copy, Debug, PartialEq, Eq)]
enum LanguageForm {
    /// By a code of Macintosh.
    Macintosh(usize),
    /// Not at all, as `und` says.
    Unset,
    /// By the three letters of its ISO 639-2/T code.
    Letters,
    /// By characters that aren't letters.
    Unknown,
}

/// The language at an index of a table.
fn language_at(languages: &[&'static str], index: usize) -> Option<&'static str>
    ensures { option_copied result ≡ slice_get (map (λ language. language.now) languages.now) index }
{
    languages.get(index).copied()
}

/// The language of a code of Macintosh.
#[tactic(auto, unfolding(crate::specs::Languages::macintosh_language, crate::specs::Languages::first_languages, crate::specs::Languages::later_languages))]
fn macintosh_language(code: usize) -> Option<&'static str>
    ensures { option_copied result ≡ macintosh_language code }
{
    match code.checked_sub(LATER) {
        None => language_at(&FIRST_LANGUAGES, code),
        Some(later) => language_at(&LATER_LANGUAGES, later),
    }
}

/// The number that a character of a language stands for.
fn number_of(character: u8) -> usize
    ensures number { result ≡ character - 0x60 }
    ensures small { result < 256 }
{
    usize::from(character.saturating_sub(ZERO))
}

/// How three characters of five bits each say a language.
#[tactic(auto, unfolding(crate::specs::Languages::language_form))]
fn form_of(characters: &[u8]) -> LanguageForm
    ensures { result ≡ language_form characters.now }
{
    let [first, second, third] = *characters else {
        return LanguageForm::Unknown;
    };
    if first == ZERO {
        return LanguageForm::Macintosh(number_of(second) * 32 + number_of(third));
    }
    if first == UNSET && second == UNSET && third == UNSET {
        return LanguageForm::Unset;
    }
    if first.is_ascii_lowercase() && second.is_ascii_lowercase() && third.is_ascii_lowercase() {
        return LanguageForm::Letters;
    }
    LanguageForm::Unknown
}

/// The ISO 639-2/T code of the language that a media header says by three characters of five bits each. Where
/// the first is 0, they are a code of Macintosh; where all bits are set, no language is said, as `und` says;
/// and the language isn't known where they aren't three letters (QuickTime File Format, "Language Code
/// Values").
pub(crate) fn language_of(characters: &str) -> Option<&str>
    ensures { option_copied result ≡ language_said characters.now }
{
    match form_of(characters.as_bytes()) {
        LanguageForm::Macintosh(code) => macintosh_language(code),
        LanguageForm::Unset => Some("und"),
        LanguageForm::Letters => Some(characters),
        LanguageForm::Unknown => None,
    }
}
