//! Instances of kinds of cells.

ghost use Rattle.std.specs.Prelude.{map};
ghost use Rattle.av_vparse.specs.inner.Lexing.{views};
ghost use Rattle.av_vparse.specs.inner.Reading.{Gives, link_at, next_link_at, links_from, links_at, instance_at};
ghost use Rattle.av_vparse.specs.Said.{said_link, said_item};

use crate::cursor::DesignCursor;
use crate::fault::ReadError;
use crate::parsed::{Instantiation, Item, PortLink};
use av_base::List;

impl<'t, 'a> DesignCursor<'t, 'a> {
    // `.port(operand)`
    #[tactic(auto, unfolding(crate::specs::inner::Reading::link_at))]
    fn link(&mut self) -> Result<PortLink, ReadError>
        ensures { Gives (λ x. (said_link x, views self.new.rest.now)) result
            (link_at (views self.old.rest.now)) }
    {
        self.word(".")?;
        let port = self.name()?;
        self.word("(")?;
        let operand = self.operand()?;
        self.word(")")?;
        Ok(PortLink { port, operand })
    }

    #[tactic(auto, unfolding(crate::specs::inner::Reading::next_link_at))]
    fn next_link(&mut self) -> Result<PortLink, ReadError>
        ensures { Gives (λ x. (said_link x, views self.new.rest.now)) result
            (next_link_at (views self.old.rest.now)) }
    {
        self.word(",")?;
        self.link()
    }

    // One link and more behind commas.
    fn links(&mut self) -> Result<List<PortLink>, ReadError>
        ensures { Gives (λ x. (map said_link x, views self.new.rest.now)) result
            (links_at (views self.old.rest.now)) }
    {
        let first = self.link()?;
        self.links_from(first)
    }

    fn links_from(&mut self, first: PortLink) -> Result<List<PortLink>, ReadError>
        ensures { Gives (λ x. (map said_link x, views self.new.rest.now)) result
            (links_from (said_link first) (views self.old.rest.now)) }
    {
        let mut found = List::new(self.alloc);
        found.push(first)?;
        while self.is_at(",") {
            let link = self.next_link()?;
            found.push(link)?;
        }
        Ok(found)
    }

    /// `kind name (link, ..);`
    #[tactic(auto, unfolding(crate::specs::inner::Reading::instance_at))]
    pub(crate) fn instance(&mut self) -> Result<Item, ReadError>
        ensures { Gives (λ x. (said_item x, views self.new.rest.now)) result
            (instance_at (views self.old.rest.now)) }
    {
        let kind = self.name()?;
        let name = self.name()?;
        self.word("(")?;
        let links = self.links()?;
        self.pair(")", ";")?;
        Ok(Item::Instance(Instantiation { kind, name, links }))
    }
}
