// The combination factors of the categories.
ghost use Rattle.std.specs.Prelude.{◌≡◌};
ghost use Rattle.rulebooks.specs.Table.{psi as psi_row};

use basis::category::Category;

// ψ0, ψ1 and ψ2 in tenths.
#[derive(Clone, Copy)]
pub struct Psi {
    pub psi0: u8,
    pub psi1: u8,
    pub psi2: u8,
}

pub(crate) fn psi_of(category: Category) -> Psi
    ensures { result ≡ psi_row category }
{
    let (psi0, psi1, psi2) = match category {
        Category::A | Category::B | Category::G => (7, 5, 3),
        Category::C | Category::D | Category::F => (7, 7, 6),
        Category::E => (10, 9, 8),
        Category::H => (0, 0, 0),
        Category::Snow => (5, 2, 0),
        Category::HighSnow => (7, 5, 2),
        Category::Wind => (6, 2, 0),
        Category::Temperature => (6, 5, 0),
    };
    Psi { psi0, psi1, psi2 }
}
