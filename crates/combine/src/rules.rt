// Rulebooks with layers over them: how they are written, and their factors as a table.
use crate::command::{Fault, fault_at, fault_of};
use crate::words::look_up;
use basis::category::Category;
use basis::factor::Factor;
use basis::situation::Situation;
use rulebooks::class_layer::{Class, ClassLayer};
use rulebooks::event::{AccidentalDesign, SeismicDesign};
use rulebooks::rulebook::{Rulebook, forms_of, situation_of};
use rulebooks::serviceability::{Characteristic, Frequent, QuasiPermanent};
use rulebooks::stage_layer::StageLayer;
use rulebooks::standard::{Expression, Standard};
use rulebooks::str_pair::StrPair;
use rulebooks::ultimate::{Equ, Geo, Str};
use std::{fmt, io};

// One of the nine rulebooks of EN 1990.
#[derive(Clone, Copy)]
pub enum Book {
    Equ,
    Str,
    StrPair,
    Geo,
    Accidental,
    Seismic,
    Characteristic,
    Frequent,
    QuasiPermanent,
}

#[derive(Clone, Copy)]
pub enum Layer {
    Class(Class),
    Stage(Category),
}

// A rulebook with at most two layers, the first one next to it.
#[derive(Clone, Copy)]
pub struct Rules {
    book: Book,
    layers: Option<(Layer, Option<Layer>)>,
}

impl<'a> TryFrom<&'a str> for Book {
    type Error = Fault<'a>;

    fn try_from(word: &'a str) -> Result<Book, Fault<'a>> {
        let names = [
            ("equ", Book::Equ),
            ("str", Book::Str),
            ("str-pair", Book::StrPair),
            ("geo", Book::Geo),
            ("accidental", Book::Accidental),
            ("seismic", Book::Seismic),
            ("characteristic", Book::Characteristic),
            ("frequent", Book::Frequent),
            ("quasi-permanent", Book::QuasiPermanent),
        ];
        look_up(&names, word).ok_or(fault_at(
            word,
            "is no rulebook (equ, str, str-pair, geo, accidental, seismic, characteristic, frequent, quasi-permanent)",
        ))
    }
}

fn parse_class(word: &str) -> Option<Class> {
    look_up(
        &[("90", Class::Rc1), ("100", Class::Rc2), ("110", Class::Rc3)],
        word,
    )
}

// The category of a word that is one letter.
fn parse_category(word: &str) -> Option<Category> {
    let letter: char = word.parse().ok()?;
    Category::try_from(letter).ok()
}

// LAYER, as a word and its value
fn parse_layer<'a>(layer: &'a str, word: &'a str) -> Result<Layer, Fault<'a>> {
    match layer {
        "class" => parse_class(word)
            .map(Layer::Class)
            .ok_or(fault_at(word, "is no class factor (90, 100, 110)")),
        "strike" => parse_category(word)
            .map(Layer::Stage)
            .ok_or(fault_at(word, "is no category letter")),
        _ => Err(fault_at(layer, "is no layer (class, strike)")),
    }
}

// BOOK [LAYER [LAYER]]
pub(crate) fn parse_rules<'a>(words: &[&'a str]) -> Result<Rules, Fault<'a>> {
    let (book, layers) = match words {
        [book] => (Book::try_from(*book)?, None),
        [book, layer, word] => {
            let book = Book::try_from(*book)?;
            (book, Some((parse_layer(layer, word)?, None)))
        }
        [book, layer, word, next_layer, next_word] => {
            let book = Book::try_from(*book)?;
            let first = parse_layer(layer, word)?;
            (
                book,
                Some((first, Some(parse_layer(next_layer, next_word)?))),
            )
        }
        _ => {
            return Err(fault_of(
                "write: rulebook NAME [LAYER [LAYER]], a layer being class K or strike CATEGORY",
            ));
        }
    };
    Ok(Rules { book, layers })
}

// A factor as a decimal number, with as many places as it needs and two at least.
#[derive(Clone, Copy)]
pub struct Decimal(Factor);

impl Decimal {
    // What stands after the point, and how many places it takes.
    fn fraction(self) -> (u32, usize) {
        let rest = self.0.units() % 100_000;
        if rest % 1000 == 0 {
            (rest / 1000, 2)
        } else if rest % 10 == 0 {
            (rest / 10, 4)
        } else {
            (rest, 5)
        }
    }

    // How many blanks bring it to five places.
    fn gap(self) -> usize {
        let (_, places) = self.fraction();
        5usize.saturating_sub(places)
    }
}

impl fmt::Display for Decimal {
    fn fmt<W: fmt::Write>(&self, f: &mut fmt::Formatter<W>) -> fmt::Result {
        let whole = self.0.units() / 100_000;
        let (rest, places) = self.fraction();
        write!(f, "{whole}.{rest:0places$}")
    }
}

const CATEGORIES: [Category; 12] = [
    Category::A,
    Category::B,
    Category::C,
    Category::D,
    Category::E,
    Category::F,
    Category::G,
    Category::H,
    Category::Snow,
    Category::HighSnow,
    Category::Wind,
    Category::Temperature,
];

fn print_category<R: Rulebook>(
    rt: &impl Print,
    rules: &R,
    form: u8,
    category: Category,
) -> io::Result<()> {
    let letter = char::from(category);
    let leading = Decimal(rules.leading(form, category));
    let gap = leading.gap();
    let accompanying = Decimal(rules.accompanying(form, category));
    println!(rt;
        "        {letter}         {leading}{:gap$}  {accompanying}",
        ""
    )
}

fn print_form<R: Rulebook>(rt: &impl Print, rules: &R, form: u8) -> io::Result<()> {
    let leader = if rules.has_leader(form) {
        "with a leader"
    } else {
        "without leader"
    };
    let upper = Decimal(rules.upper(form));
    let lower = Decimal(rules.lower(form));
    let prestress = Decimal(rules.prestress(form));
    println!(rt;
        "      form {form}, {leader}: permanent upper {upper}, lower {lower}; prestress {prestress}"
    )?;
    println!(rt; "        category  leading  accompanying")?;
    for category in CATEGORIES {
        print_category(rt, rules, form, category)?;
    }
    Ok(())
}

// No Display, which for a type of another crate would want a wrapper that says no more.
fn situation_word(situation: Situation) -> &'static str {
    match situation {
        Situation::Persistent => "persistent",
        Situation::Accidental => "accidental",
        Situation::Seismic => "seismic",
        Situation::Serviceability => "serviceability",
    }
}

fn print_rulebook<R: Rulebook>(rt: &impl Print, rules: &R) -> io::Result<()> {
    let situation = situation_word(situation_of(rules));
    let split = if rules.splits() { "split" } else { "not split" };
    println!(rt; "      {situation} situation, permanent actions {split}")?;
    for form in 0..forms_of(rules) {
        print_form(rt, rules, form)?;
    }
    Ok(())
}

// The second layer. Each layer makes another type, so each depth has a function.
fn print_under<R: Rulebook>(rt: &impl Print, rules: R, layer: Option<Layer>) -> io::Result<()>
where
    R: Drop,
{
    match layer {
        None => print_rulebook(rt, &rules),
        Some(Layer::Class(class)) => print_rulebook(rt, &ClassLayer::over(class, rules)),
        Some(Layer::Stage(struck)) => print_rulebook(rt, &StageLayer::over(struck, rules)),
    }
}

fn print_layers<R: Rulebook>(rt: &impl Print, book: R, rules: Rules) -> io::Result<()>
where
    R: Drop,
{
    match rules.layers {
        None => print_rulebook(rt, &book),
        Some((Layer::Class(class), next)) => print_under(rt, ClassLayer::over(class, book), next),
        Some((Layer::Stage(struck), next)) => print_under(rt, StageLayer::over(struck, book), next),
    }
}

// The factors of a rulebook with its layers. Each rulebook is a type, so each has an arm.
pub(crate) fn print_rules(rt: &impl Print, rules: Rules) -> io::Result<()> {
    match rules.book {
        Book::Equ => print_layers(rt, Standard(Equ), rules),
        Book::Str => print_layers(rt, Standard(Str), rules),
        Book::StrPair => print_layers(rt, Standard(StrPair), rules),
        Book::Geo => print_layers(rt, Standard(Geo), rules),
        Book::Accidental => print_layers(rt, Standard(AccidentalDesign), rules),
        Book::Seismic => print_layers(rt, Standard(SeismicDesign), rules),
        Book::Characteristic => print_layers(rt, Standard(Characteristic), rules),
        Book::Frequent => print_layers(rt, Standard(Frequent), rules),
        Book::QuasiPermanent => print_layers(rt, Standard(QuasiPermanent), rules),
    }
}
