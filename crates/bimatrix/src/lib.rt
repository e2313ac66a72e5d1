// Games of two players with 2 strategies each, as two matrices of numbers: swapping rows and
// columns, and the key that document 01, "The catalogue", makes of ranks. Any numbers may be handed
// in.
#![tactic(auto)]

ghost use Rattle.std.specs.Prelude.{◌≡◌};
ghost use Rattle.bimatrix.specs.Matrices.{in_order, swap_rows, swap_columns, both};
ghost use Rattle.bimatrix.specs.Keys.{different, strictly_ranked, base4, key, least_key};

// One player's numbers at the four profiles: at01 is that of row 0, player 0's strategy, and column
// 1, player 1's.
#[derive(Clone, Copy)]
pub struct Matrix {
    pub at00: u8,
    pub at01: u8,
    pub at10: u8,
    pub at11: u8,
}

impl Matrix {
    // The rows swapped.
    fn swap_rows(self) -> Matrix
        ensures { result ≡ swap_rows self }
    {
        Matrix {
            at00: self.at10,
            at01: self.at11,
            at10: self.at00,
            at11: self.at01,
        }
    }

    // The columns swapped.
    fn swap_columns(self) -> Matrix
        ensures { result ≡ swap_columns self }
    {
        Matrix {
            at00: self.at01,
            at01: self.at00,
            at10: self.at11,
            at11: self.at10,
        }
    }

    // Whether no two of the numbers are equal.
    fn different(self) -> bool
        ensures { result ≡ different (in_order self) }
    {
        (self.at00 != self.at01)
            & (self.at00 != self.at10)
            & (self.at00 != self.at11)
            & (self.at01 != self.at10)
            & (self.at01 != self.at11)
            & (self.at10 != self.at11)
    }

    // The number whose base-4 digits these are, the first one highest.
    fn base4(self) -> usize
        ensures { result ≡ base4 (in_order self) }
    {
        let high = usize::from(self.at00) * 4 + usize::from(self.at01);
        let low = usize::from(self.at10) * 4 + usize::from(self.at11);
        high * 16 + low
    }
}

// The matrices of both players: player 0's, and player 1's.
#[derive(Clone, Copy)]
pub struct Bimatrix {
    pub first: Matrix,
    pub second: Matrix,
}

impl Bimatrix {
    // The rows swapped. Rows and columns have a body each: one over a closure would be no shorter.
    fn swap_rows(self) -> Bimatrix
        ensures { result ≡ both swap_rows self }
    {
        Bimatrix {
            first: self.first.swap_rows(),
            second: self.second.swap_rows(),
        }
    }

    // The columns swapped.
    fn swap_columns(self) -> Bimatrix
        ensures { result ≡ both swap_columns self }
    {
        Bimatrix {
            first: self.first.swap_columns(),
            second: self.second.swap_columns(),
        }
    }

    // Whether no two numbers of the same player are equal.
    pub fn strictly_ranked(self) -> bool
        ensures { result ≡ strictly_ranked self }
    {
        self.first.different() & self.second.different()
    }

    // The eight numbers as base-4 digits, player 0's first.
    fn key(self) -> usize
        ensures { result ≡ key self }
    {
        self.first.base4() * 256 + self.second.base4()
    }

    // The least key among the four tables got by swapping rows, columns or both.
    pub fn least_key(self) -> usize
        ensures { result ≡ least_key self }
    {
        let columns = self.swap_columns();
        let rows = self.swap_rows();
        let both = columns.swap_rows();
        self.key()
            .min(rows.key())
            .min(columns.key())
            .min(both.key())
    }
}
