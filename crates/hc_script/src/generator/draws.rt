//! What is drawn for a command.
ghost use Rattle.std.specs.Prelude.{◌≡◌, ◌<◌};
ghost use Rattle.hc_script.specs.Generator.{drawn, after_draws, told, draws_from};

/// The numbers that are drawn for one command.
#[derive(Clone, Copy)]
pub struct Draws {
    /// A row of the table.
    pub row: u64,
    /// How far the object that is used lies behind the newest.
    pub back: u32,
    /// A name or a site.
    pub name: u32,
    /// A value.
    pub value: u64,
}

/// Draws four numbers.
pub fn draw_all(number: &mut u64) -> Draws
    ensures draws { result ≡ draws_from number.old }
    ensures number { number.new ≡ after_draws 4 number.old }
    ensures row { result.row < 16 }
    ensures back { result.back < 8 }
    ensures name { result.name < 8 }
    ensures value { result.value < 8 }
{
    let row = draw(number, 16);
    let back = draw(number, 8);
    let name = draw(number, 8);
    let value = draw(number, 8);
    Draws {
        row,
        back: back as u32,
        name: name as u32,
        value,
    }
}

// Draws a number below k.
fn draw(number: &mut u64, k: u64) -> u64
    requires { 0 < k }
    ensures told { result ≡ told number.new k }
    ensures number { number.new ≡ drawn number.old }
    ensures below { result < k }
{
    *number = number
        .wrapping_mul(6364136223846793005)
        .wrapping_add(1442695040888963407);
    (*number >> 33) % k
}
