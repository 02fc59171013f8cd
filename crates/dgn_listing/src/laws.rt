//! A law over the definitions that the contracts cite. The function does nothing; it states the law and is
//! proved.

ghost use Rattle.dgn_listing.specs.Laws.{LinksAreOfTheRecord};

/// What `links` says of the bytes of a well formed record is what it says of the record.
pub fn links_are_of_the_record()
    ensures { LinksAreOfTheRecord }
{}
