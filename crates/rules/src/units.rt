// What the rules count in. Each is a type of its own, so that lots are never taken where fen are due.

/// Money: whole fen, signed.
#[derive(Clone, Copy, Default)]
pub struct Fen(pub i64);

/// Goods.
#[derive(Clone, Copy)]
pub struct Lots(pub u32);

/// Fen per unit of goods.
#[derive(Clone, Copy)]
pub struct Price(pub u32);

/// Lots of one contract on its two sides: held, opening or paired.
#[derive(Clone, Copy)]
pub struct Sides {
    pub long: Lots,
    pub short: Lots,
}

/// One contract's prices in an evening.
#[derive(Clone, Copy)]
pub struct Prices {
    pub last: Price,
    pub tonight: Price,
    pub delivery: Price,
}

/// What is kept of a member's money from evening to evening.
#[derive(Clone, Copy)]
pub struct Figures {
    pub reserve: Fen,
    pub margin: Fen,
    pub usable: Fen,
}

/// What moved a member's money in a day.
#[derive(Clone, Copy)]
pub struct Movements {
    pub profit: Fen,
    pub deposits: Fen,
    pub withdrawals: Fen,
    pub fee: Fen,
}
