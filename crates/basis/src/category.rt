// The categories of variable actions.
ghost use Rattle.std.specs.Prelude.{◌≡◌, Some};
ghost use Rattle.std.specs.Result.{result_ok};
ghost use Rattle.basis.specs.Vocabulary.{category_of};

#[derive(Clone, Copy, PartialEq, Eq, Debug)]
pub enum Category {
    // domestic and residential areas
    A,
    // office areas
    B,
    // congregation areas
    C,
    // shopping areas
    D,
    // storage areas
    E,
    // traffic, vehicles up to 30 kN
    F,
    // traffic, vehicles above 30 kN
    G,
    // roofs
    H,
    // snow up to 1000 m above sea level
    Snow,
    // snow above 1000 m
    HighSnow,
    Wind,
    Temperature,
}

// A letter that stands for no category, as any small letter.
#[derive(Clone, Copy, PartialEq, Eq, Debug)]
pub struct UnknownCategory;

// The category that a letter stands for.
impl TryFrom<char> for Category {
    type Error = UnknownCategory;

    ghost try_from_gives = { λ letter category. result_ok category ≡ category_of letter };

    fn try_from(letter: char) -> Result<Category, UnknownCategory> {
        match letter {
            'A' => Ok(Category::A),
            'B' => Ok(Category::B),
            'C' => Ok(Category::C),
            'D' => Ok(Category::D),
            'E' => Ok(Category::E),
            'F' => Ok(Category::F),
            'G' => Ok(Category::G),
            'H' => Ok(Category::H),
            'S' => Ok(Category::Snow),
            'M' => Ok(Category::HighSnow),
            'W' => Ok(Category::Wind),
            'T' => Ok(Category::Temperature),
            _ => Err(UnknownCategory),
        }
    }
}

// The letter that stands for the category.
impl From<Category> for char {
    ghost from_gives = { λ category letter. category_of letter ≡ Some category };

    fn from(category: Category) -> char {
        match category {
            Category::A => 'A',
            Category::B => 'B',
            Category::C => 'C',
            Category::D => 'D',
            Category::E => 'E',
            Category::F => 'F',
            Category::G => 'G',
            Category::H => 'H',
            Category::Snow => 'S',
            Category::HighSnow => 'M',
            Category::Wind => 'W',
            Category::Temperature => 'T',
        }
    }
}
