// An image has one listing.

ghost use Rattle.std.specs.Prelude.{◌≡◌, List, ℕ};
ghost use Rattle.avr_dis.specs.Listing.{IsListing};

use avr_decode::at_most_one;
use uz_hex::Image;

/// The law that an image has at most one listing. Does nothing.
pub fn listing_is_unique(image: &Image)
    ensures { (text other : List ℕ) → IsListing image.now text → IsListing image.now other → text ≡ other }
{
    let _ = image; // said of in the contract alone
    at_most_one();
}
