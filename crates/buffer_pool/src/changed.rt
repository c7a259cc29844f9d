// Pages that records have changed, not yet in their frames.
use page_set::Page;
use seg_base::Dba;
use std::marker::Model;

/// What records make of the page of a block.
#[derive(Drop)]
pub struct NewPage {
    pub(crate) dba: Dba,
    pub(crate) page: Page,
}

/// Pages as `prepare` made them.
#[derive(Drop)]
pub struct Changed {
    pub(crate) pages: Vec<NewPage>,
}

impl Model for Changed {
    ghost use Rattle.std.specs.Prelude.{List};
    ghost use Rattle.buffer_pool.specs.declared.changed.NewPage.{NewPage};

    ghost Value = { List NewPage };

    ghost view = { λ c. c.pages.items };
}
