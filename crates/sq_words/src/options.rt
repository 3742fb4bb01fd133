//! The options of a run.
ghost use Rattle.std.specs.Prelude.{◌≡◌};
ghost use Rattle.std.specs.Option.{option_copied, option_map, unwrap_or};
ghost use Rattle.sq_words.specs.Words as spec;
ghost use Rattle.sq_words.specs.Said.{said, set};

use crate::seeds::seed_number;

/// Which of the ready events of a run is next: `first`, `last`, `seed:N` or `list:FILE`.
#[derive(Clone, Copy)]
pub enum Way<'a> {
    First,
    Last,
    Seed(u64),
    List(&'a str),
}

// What one option says: `order=..` or `trace=..`.
#[derive(Clone, Copy)]
enum Setting<'a> {
    Order(Way<'a>),
    Traced(bool),
}

// What the options say.
#[derive(Clone, Copy)]
pub(crate) struct Options<'a> {
    pub(crate) order: Option<Way<'a>>,
    pub(crate) traced: Option<bool>,
}

impl<'a> Options<'a> {
    // What they say with one more, unless they say it already.
    fn with(self, setting: Setting<'a>) -> Option<Options<'a>>
        ensures { option_map said result ≡ spec.with_setting (said self.entry) (set setting.entry) }
    {
        match (setting, self.order, self.traced) {
            (Setting::Order(way), None, _) => Some(Options {
                order: Some(way),
                traced: self.traced,
            }),
            (Setting::Traced(traced), _, None) => Some(Options {
                order: self.order,
                traced: Some(traced),
            }),
            _ => None,
        }
    }
}

impl<'a> Options<'a> {
    // The order that they say, or the first.
    pub(crate) fn order_or_first(self) -> Way<'a>
        ensures { spec.asked result ≡ unwrap_or (said self.entry).order (spec.with_no_file spec.first) }
    {
        match self.order {
            Some(way) => way,
            None => Way::First,
        }
    }
}

// What stands behind this front of the text, if it begins with it.
fn behind<'a>(text: &'a str, front: &str) -> Option<&'a str>
    ensures { option_copied result ≡ spec.behind front.now text.now }
{
    text.strip_prefix(front)
}

fn way_for(text: &str) -> Option<Way<'_>>
    ensures { option_map spec.asked result ≡ spec.order_of text.now }
{
    if text == "first" {
        return Some(Way::First);
    }
    if text == "last" {
        return Some(Way::Last);
    }
    if let Some(digits) = behind(text, "seed:") {
        return match seed_number(digits) {
            Some(seed) => Some(Way::Seed(seed)),
            None => None,
        };
    }
    match behind(text, "list:") {
        Some(file) => Some(Way::List(file)),
        None => None,
    }
}

fn answer_for(text: &str) -> Option<bool>
    ensures { result ≡ spec.answer_of text.now }
{
    if text == "yes" {
        Some(true)
    } else if text == "no" {
        Some(false)
    } else {
        None
    }
}

fn setting_for(word: &str) -> Option<Setting<'_>>
    ensures { option_map set result ≡ spec.setting_of word.now }
{
    if let Some(text) = behind(word, "order=") {
        return match way_for(text) {
            Some(way) => Some(Setting::Order(way)),
            None => None,
        };
    }
    if let Some(text) = behind(word, "trace=") {
        return match answer_for(text) {
            Some(traced) => Some(Setting::Traced(traced)),
            None => None,
        };
    }
    None
}

// What the options say with this word, if it is one more.
fn with_word<'a>(options: Options<'a>, word: &'a str) -> Option<Options<'a>>
    ensures { option_map said result ≡ spec.with_word (said options.entry) word.now }
{
    match setting_for(word) {
        Some(setting) => options.with(setting),
        None => None,
    }
}

/// What the words say, if each is an option and none says again what one before it says.
pub(crate) fn options_of(words: &[String]) -> Option<Options<'_>>
    ensures { option_map said result ≡ spec.options_of spec.no_options (spec.texts words.now) }
{
    let mut options = Options {
        order: None,
        traced: None,
    };
    for word in words {
        match with_word(options, word.as_str()) {
            Some(more) => options = more,
            None => return None,
        }
    }
    Some(options)
}
